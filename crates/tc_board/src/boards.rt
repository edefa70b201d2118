//! The rehearsal spacecraft behind the link.
ghost use Rattle.std.specs.Prelude.{◌≡◌, ◌+◌, ◌*◌, ◌≤◌, ◌<◌, ◌++◌, ◌∷◌, [], length, nat_lt, vec_len, vec_capacity, IfOk, OnOk};
ghost use Rattle.std.specs.Option.{option_to_list};
ghost use Rattle.std.specs.List.{flat_map};
ghost use Rattle.tc_board.specs.Schedule.{failure_of, after_command, Obeys, Becomes};
ghost use Rattle.tc_board.specs.Board.{new_board, reporter_of, reporter_at, outcome_of, accept_reports, accepted, command_reports, task_reports, after_task, work_reports, worked, released, ClockReports, clocked, oldest_of};

use crate::logs::Log;
use crate::outcomes::{Reporter, is_refused};
use crate::schedules::{Schedule, ScheduleFault};
use std::alloc::{AllocError, Allocator};
use std::collections::VecDeque;
use std::marker::Model;
use tc_types::{
    Activity, Identity, Moment, Outcome, ScheduleCommand, Task, Telecommand, Telemetry,
    Verification,
};

/// How many requests the input buffer holds (this desk's own).
pub const BUFFER: usize = 4;

/// The code of an activity that falls due while the schedule is disabled (this desk's own).
pub const NOT_ENABLED: u8 = 5;

/// The spacecraft: its time, its input buffer, oldest first, its schedule, and all that it was given since it was made. A contract sees these.
#[derive(Drop)]
pub struct Board<A: Allocator + Copy + Drop> {
    alloc: A,
    time: Moment,
    buffer: VecDeque<Telecommand, A>,
    schedule: Schedule<A>,
    given: Log<Telecommand>,
}

impl<A: Allocator + Copy + Drop> Model for Board<A> {
    ghost use Rattle.std.specs.Prelude.{◌≤◌, length};
    ghost use Rattle.std.specs.VecDeque.{deque_capacity};
    ghost use Rattle.tc_board.specs.Board.{BoardState};

    ghost Value = { BoardState };

    ghost view = { λ b. record { time = b.time; buffer = b.buffer.items; schedule = b.schedule; given = b.given.entries } };

    ghost invariant = { λ b. (length b.buffer.items ≤ 4) × (4 ≤ deque_capacity b.buffer) };
}

/// Whose reports those of a request are.
fn reporter_of(request: &Telecommand) -> Reporter
    ensures { result ≡ reporter_of request.now }
{
    Reporter {
        request: request.request,
        identity: request.identity,
        ack: request.ack,
    }
}

/// Whose reports those of an activity are.
fn reporter_at(activity: &Activity) -> Reporter
    ensures { result ≡ reporter_at activity.now }
{
    Reporter {
        request: activity.request,
        identity: activity.identity,
        ack: activity.ack,
    }
}

/// How a request behaves as it comes: a command of the schedule is accepted.
fn outcome_of(task: &Task) -> Outcome
    ensures { result ≡ outcome_of task.now }
{
    match task {
        Task::Plain(outcome) => *outcome,
        Task::Schedule(_) => Outcome::Completes,
    }
}

/// Appends the reports of an activity that falls due: one failure alone where the schedule is disabled. Where memory is
/// refused some may stand.
fn release<A: Allocator>(
    activity: &Activity,
    enabled: bool,
    reports: &mut Vec<Telemetry, A>,
) -> Result<(), AllocError>
    ensures released { OnOk result (reports.new.items ≡ reports.old.items ++ released enabled activity.now) }
    ensures few { vec_len reports.new ≤ vec_len reports.old + 12 }
{
    let reporter = reporter_at(activity);
    if !enabled {
        reports.push(reporter.tells(Verification::StartFailed { code: NOT_ENABLED }))?;
        return Ok(());
    }
    if let Some(report) = reporter.first_report(activity.outcome) {
        reports.push(report)?;
    }
    reporter.later_reports(activity.outcome, reports)
}

/// The reports of all these activities, in order.
fn release_all<A: Allocator + Copy>(
    alloc: A,
    due: &[Activity],
    enabled: bool,
) -> Result<Vec<Telemetry, A>, AllocError>
    ensures released { IfOk result (λ reports. reports.items ≡ flat_map (released enabled) due.now) }
    ensures few { IfOk result (λ reports. vec_len reports ≤ 12 * length due.now) }
{
    let mut reports = Vec::new(alloc);
    for activity in due {
        release(activity, enabled, &mut reports)?;
    }
    Ok(reports)
}

/// A command's effect on the schedule, or why it fails: then nothing changes.
fn command_schedule<A: Allocator + Copy + Drop>(
    schedule: &mut Schedule<A>,
    now: Moment,
    command: ScheduleCommand,
) -> Result<(), ScheduleFault>
    ensures { Obeys now command schedule.old schedule.new result }
{
    match command {
        ScheduleCommand::Enable => schedule.enable(),
        ScheduleCommand::Disable => schedule.disable(),
        ScheduleCommand::Reset => schedule.reset(),
        ScheduleCommand::Insert(activities) => return schedule.insert(now, &activities),
        ScheduleCommand::Delete { target } => return schedule.delete(now, target),
        ScheduleCommand::Shift { target, offset } => return schedule.shift(now, target, offset),
        ScheduleCommand::ShiftAll { offset } => return schedule.shift_all(now, offset),
        ScheduleCommand::Summarize => {}
    }
    Ok(())
}

/// Carries out a command of the schedule, and appends its reports, for which there is room.
fn carry_command<A: Allocator + Copy + Drop>(
    schedule: &mut Schedule<A>,
    now: Moment,
    reporter: &Reporter,
    command: &ScheduleCommand,
    reports: &mut Vec<Telemetry, A>,
)
    requires { vec_len reports.old + 3 ≤ vec_capacity reports.old }
    ensures after { schedule.new ≡ after_command (failure_of now command.now schedule.old) command.now schedule.old }
    ensures few { vec_len reports.new ≤ vec_len reports.old + 3 }
    ensures reports { reports.new.items ≡ reports.old.items ++ command_reports reporter.now (failure_of now command.now schedule.old) command.now schedule.old }
{
    let done = command_schedule(schedule, now, *command);
    if let Err(fault) = &done {
        let code = fault.code();
        reports.push_reserved(reporter.tells(Verification::StartFailed { code }));
        return;
    }
    if reporter.ack.start {
        reports.push_reserved(reporter.tells(Verification::Started));
    }
    if matches!(command, ScheduleCommand::Summarize) {
        reports.push_reserved(Telemetry::Summary(schedule.summary()));
    }
    reports.push_reserved(reporter.tells(Verification::Completed));
}

/// Carries out a task, and gives its reports. Fails where memory is refused; then nothing changes.
fn carry_out<A: Allocator + Copy + Drop>(
    alloc: A,
    schedule: &mut Schedule<A>,
    now: Moment,
    reporter: &Reporter,
    task: Task,
) -> Result<Vec<Telemetry, A>, AllocError>
    ensures reports { IfOk result (λ reports. reports.items ≡ task_reports now reporter.now task schedule.old) }
    ensures few { IfOk result (λ reports. vec_len reports ≤ 11) }
    ensures after { Becomes schedule.old schedule.new (after_task now task schedule.old) result }
{
    let mut reports = Vec::with_capacity(alloc, 3)?;
    match task {
        Task::Schedule(command) => carry_command(schedule, now, reporter, &command, &mut reports),
        Task::Plain(outcome) => reporter.later_reports(outcome, &mut reports)?,
    }
    Ok(reports)
}

impl<A: Allocator + Copy + Drop> Board<A> {
    /// A spacecraft at this time, with an empty buffer and an empty, disabled schedule. Fails where memory is refused.
    pub fn new(alloc: A, time: Moment) -> Result<Self, AllocError>
        ensures { IfOk result (λ b. b ≡ new_board time) }
    {
        let buffer = VecDeque::with_capacity(alloc, BUFFER)?;
        let schedule = Schedule::new(alloc)?;
        Ok(Board {
            alloc,
            time,
            buffer,
            schedule,
            given: Log::new(),
        })
    }

    /// Whether the buffer has room for one more request.
    pub fn room(&self) -> bool
        ensures { result ≡ nat_lt (length self.now.buffer) 4 }
    {
        self.buffer.len() < BUFFER
    }

    /// The board's time.
    pub fn now(&self) -> Moment
        ensures { result ≡ self.now.time }
    {
        self.time
    }

    /// The name of the oldest request of the buffer; `None` where it is empty.
    pub fn oldest(&self) -> Option<Identity>
        ensures { result ≡ oldest_of self.now.buffer }
    {
        match self.buffer.front() {
            None => None,
            Some(request) => Some(request.identity),
        }
    }

    /// The schedule.
    pub fn schedule(&self) -> &Schedule<A>
        ensures { result.now ≡ self.now.schedule }
    {
        &self.schedule
    }

    /// Takes a request: writes it into the log, returns its report of acceptance, if it makes one, and puts it into the buffer if it is not
    /// refused. It takes no memory: there is room.
    pub fn accept(&mut self, request: Telecommand) -> Option<Telemetry>
        requires { length self.old.buffer < 4 }
        ensures reports { option_to_list result ≡ accept_reports request }
        ensures after { self.new ≡ accepted request self.old }
    {
        let outcome = outcome_of(&request.task);
        let reporter = reporter_of(&request);
        let report = reporter.first_report(outcome);
        self.write_down(&request);
        if is_refused(&outcome) {
            return report;
        }
        self.enter(&request);
        report
    }

    /// Writes into the log that the spacecraft was given this request.
    fn write_down(&mut self, request: &Telecommand)
        ensures { self.new ≡ record self.old { given = self.old.given ++ request.now ∷ [] } }
    {
        self.given = self.given.with(request);
    }

    /// Puts a request into the buffer, which has room.
    fn enter(&mut self, request: &Telecommand)
        requires { length self.old.buffer < 4 }
        ensures { self.new ≡ record self.old { buffer = self.old.buffer ++ request.now ∷ [] } }
    {
        self.buffer.push_back_reserved(*request);
    }

    /// Carries out the oldest request of the buffer, which leaves it, and gives its later reports, at most 11; none where
    /// the buffer is empty. Fails where memory is refused; then nothing changes.
    pub fn work(&mut self) -> Result<Vec<Telemetry, A>, AllocError>
        ensures reports { IfOk result (λ reports. reports.items ≡ work_reports self.old self.old.buffer) }
        ensures few { IfOk result (λ reports. vec_len reports ≤ 11) }
        ensures after { Becomes self.old self.new (worked self.old self.old.buffer) result }
    {
        let oldest = match self.buffer.front() {
            None => return Ok(Vec::new(self.alloc)),
            Some(request) => *request,
        };
        let reporter = reporter_of(&oldest);
        let reports = carry_out(
            self.alloc,
            &mut self.schedule,
            self.time,
            &reporter,
            oldest.task,
        )?;
        let _done = self.buffer.pop_front();
        Ok(reports)
    }

    /// The time is now this one, which is not before the one that was. What falls due by it leaves the schedule, by time,
    /// application process and count, and its reports are given, at most 12 for each. Fails where memory is
    /// refused; then nothing changes.
    pub fn clock(&mut self, time: Moment) -> Result<Vec<Telemetry, A>, AllocError>
        requires { self.old.time ≤ time }
        ensures reports { IfOk result (λ reports. ClockReports time self.old.schedule reports.items) }
        ensures few { IfOk result (λ reports. vec_len reports ≤ 768) }
        ensures after { Becomes self.old self.new (clocked time self.old) result }
    {
        let due = self.schedule.due_by(self.alloc, time)?;
        let reports = release_all(self.alloc, &due, self.schedule.is_enabled())?;
        self.schedule.drop_due(time);
        self.time = time;
        Ok(reports)
    }
}
