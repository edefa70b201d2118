//! The commands of the on-board schedule at the desk: which requests they name, and what flies of them.
ghost use Rattle.std.specs.Prelude.{◌≡◌};
ghost use Rattle.tc_types.specs.declared.link.telecommands.ScheduleCommand.TheVariants as schedule;
ghost use Rattle.tc_types.specs.Inserts.{IsInsert};
ghost use Rattle.tc_desk.specs.Commands.{activity_of, flown_activity, insert_of, flown_command, task_of, payload_of, command_at, activities_at};

use std::alloc::Allocator;
use tc_book::Records;
use tc_types::{
    Activities, Activity, Body, Command, MOST_INSERTED, Moment, Payload, Request, Ride, Rides,
    ScheduleCommand, Targets, Task,
};

/// A request as an activity that is released at this time.
fn activity_of(target: &Request, time: Moment) -> Activity
    ensures { result ≡ activity_of target.now time }
{
    Activity {
        request: target.number,
        identity: target.body.identity,
        ack: target.body.ack,
        outcome: target.body.outcome,
        time,
    }
}

/// What an insert names at one of its places, as the activity that flies with it; `None` where that request is not there.
fn flown_activity<A: Allocator + Copy + Drop>(records: &Records<A>, ride: &Ride) -> Option<Activity>
    ensures { result ≡ flown_activity records.now.book ride.now }
{
    match records.request(ride.target) {
        None => None,
        Some(target) => Some(activity_of(&target, ride.time)),
    }
}

/// An insert of these activities.
fn insert(activities: &[Activity]) -> ScheduleCommand
    requires { IsInsert activities.now }
    ensures { result ≡ schedule.Insert activities.now }
{
    ScheduleCommand::Insert(Activities::of(activities).unwrap())
}

/// What an insert names, as an insert that flies; `None` where a request is not there.
fn insert_of<A: Allocator + Copy + Drop>(
    records: &Records<A>,
    rides: &Rides,
) -> Option<ScheduleCommand>
    ensures { result ≡ insert_of records.now.book rides.now }
{
    let mut places = [flown_activity(records, &rides.first())?; MOST_INSERTED];
    let named = rides.as_slice();
    for (index, ride) in named.iter().enumerate() {
        places[index] = flown_activity(records, ride)?;
    }
    Some(insert(&places[..named.len()]))
}

/// A command of the schedule as it flies; `None` for a plain one.
fn flown_command<A: Allocator + Copy + Drop>(
    records: &Records<A>,
    command: &Command,
) -> Option<ScheduleCommand>
    ensures { result ≡ flown_command records.now.book command.now }
{
    match command {
        Command::Plain { .. } => None,
        Command::EnableSchedule => Some(ScheduleCommand::Enable),
        Command::DisableSchedule => Some(ScheduleCommand::Disable),
        Command::ResetSchedule => Some(ScheduleCommand::Reset),
        Command::InsertActivities(rides) => insert_of(records, rides),
        Command::DeleteActivity { target } => Some(ScheduleCommand::Delete { target: *target }),
        Command::ShiftActivity { target, offset } => Some(ScheduleCommand::Shift {
            target: *target,
            offset: *offset,
        }),
        Command::ShiftAll { offset } => Some(ScheduleCommand::ShiftAll { offset: *offset }),
        Command::SummarizeAll => Some(ScheduleCommand::Summarize),
    }
}

/// What a request asks of the spacecraft.
fn task_of(body: &Body, command: Option<ScheduleCommand>) -> Task
    ensures { result ≡ task_of body.now command }
{
    match command {
        None => Task::Plain(body.outcome),
        Some(command) => Task::Schedule(command),
    }
}

/// What flies of a request.
pub(crate) fn payload_of<A: Allocator + Copy + Drop>(records: &Records<A>, body: &Body) -> Payload
    ensures { result ≡ payload_of records.now.book body.now }
{
    Payload {
        identity: body.identity,
        ack: body.ack,
        task: task_of(body, flown_command(records, &body.command)),
    }
}

/// The command that flew with request `n`; `None` where it is plain.
pub(crate) fn command_at<A: Allocator + Copy + Drop>(
    records: &Records<A>,
    n: u32,
) -> Option<ScheduleCommand>
    ensures { result ≡ command_at records.now.book n }
{
    match records.request(n) {
        None => None,
        Some(request) => flown_command(records, &request.body.command),
    }
}

/// The activities of request `n`, where that is an insert, in its order.
pub(crate) fn activities_at<A: Allocator + Copy + Drop>(records: &Records<A>, n: u32) -> Targets
    ensures { result ≡ activities_at records.now.book n }
{
    match records.request(n) {
        None => Targets::of(&[]).unwrap(),
        Some(request) => request.body.command.inserted(),
    }
}
