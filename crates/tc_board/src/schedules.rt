//! The on-board schedule (ECSS-E-ST-70-41C, service 11).
ghost use Rattle.std.specs.Prelude.{◌≡◌, ◌≤◌, ◌+◌, ◌++◌, ◌&&◌, not, map, filter, drop, length, vec_len, vec_capacity, Some, IsPermutation, IsSortedBy, IfOk, OnOk, if◌then◌else◌};
ghost use Rattle.std.specs.List.{list_any};
ghost use Rattle.tc_types.specs.declared.link.telecommands.ScheduleCommand.TheVariants as command;
ghost use Rattle.tc_board.specs.Schedule.{empty_schedule, fault_code, failure_of, Obeys, Becomes, Holds, commanded, after_due, FallDue, summary_of, is_of, is_too_early, has_one_twice, meets_one, is_bad_time, shifted_time, nearest_moment, shifts_badly, shifted, has_identity, is_due, is_before, IsSchedule, listed, places_for};

use std::alloc::{AllocError, Allocator};
use std::marker::Model;
use tc_types::limits::LARGEST_MOMENT;
use tc_types::{
    Activities, Activity, Identity, ListedActivity, MOST_ACTIVITIES, Moment, Offset, Summary,
};

/// How far off a time to come is at least, in seconds (this desk's own).
pub const MARGIN: u32 = 60;

/// Why a command of the schedule fails (this desk's own).
#[derive(Clone, Copy, Debug, PartialEq, Eq)]
pub enum ScheduleFault {
    /// A time is nearer than the margin, or past the last moment.
    Time,
    /// No such activity is there.
    NotThere,
    /// The schedule is full.
    Full,
    /// An identity is there already, or comes twice.
    IdentityInUse,
}

impl ScheduleFault {
    /// The code that a report carries.
    pub fn code(self) -> u8
        ensures { result ≡ fault_code self }
    {
        match self {
            ScheduleFault::Time => 2,
            ScheduleFault::NotThere => 3,
            ScheduleFault::Full => 4,
            ScheduleFault::IdentityInUse => 6,
        }
    }
}

/// The on-board schedule: a status, and at most 64 activities, no two of one identity. A contract sees both.
#[derive(Drop)]
pub struct Schedule<A: Allocator + Copy + Drop> {
    enabled: bool,
    activities: Vec<Activity, A>,
}

impl<A: Allocator + Copy + Drop> Model for Schedule<A> {
    ghost use Rattle.std.specs.Prelude.{◌≤◌, vec_capacity};
    ghost use Rattle.tc_board.specs.Schedule.{ScheduleState, IsSchedule};

    ghost Value = { ScheduleState };

    ghost view = { λ s. record { enabled = s.enabled; activities = s.activities.items } };

    ghost invariant = { λ s. IsSchedule s.activities.items × (64 ≤ vec_capacity s.activities) };
}

/// Whether a time to come is nearer than the margin.
fn is_too_early(now: Moment, time: Moment) -> bool
    ensures { result ≡ is_too_early now time }
{
    u64::from(time.get()) < u64::from(now.get()) + u64::from(MARGIN)
}

/// Whether the time of an activity is nearer than the margin.
fn some_is_too_early(now: Moment, activities: &[Activity]) -> bool
    ensures { result ≡ list_any (λ a. is_too_early now a.time) activities.now }
{
    activities.iter().any(|a| is_too_early(now, a.time))
}

/// Whether an activity has this identity.
fn some_has_identity(activities: &[Activity], identity: Identity) -> bool
    ensures { result ≡ list_any (has_identity identity) activities.now }
{
    let apid = identity.apid.get();
    let count = identity.count.get();
    activities.iter().any(|a| a.identity.apid.get() == apid && a.identity.count.get() == count)
}

/// Whether an activity has an identity that is there.
fn meets_one(there: &[Activity], activities: &[Activity]) -> bool
    ensures { result ≡ meets_one there.now activities.now }
{
    activities
        .iter()
        .any(|a| some_has_identity(there, a.identity))
}

/// Whether two activities have one identity.
fn has_one_twice(activities: &[Activity]) -> bool
    ensures { result ≡ has_one_twice activities.now }
{
    for (index, activity) in activities.iter().enumerate() {
        if some_has_identity(&activities[index + 1..], activity.identity) {
            return true;
        }
    }
    false
}

/// These are put behind the others, for which there is room.
fn put_behind<A: Allocator>(activities: &mut Vec<Activity, A>, others: &[Activity])
    requires { vec_len activities.old + length others.now ≤ vec_capacity activities.old }
    ensures { Holds (activities.old.items ++ others.now) activities.old activities.new }
{
    for activity in others {
        activities.push_reserved(*activity);
    }
}

/// The moment that is so far from a time, or the nearest one.
pub(crate) fn nearest(time: Moment, offset: Offset) -> Moment
    ensures { result ≡ nearest_moment (shifted_time offset time) }
{
    let seconds = i64::from(time.get()) + offset.get();
    if seconds < 0 {
        return Moment::new(0).unwrap();
    }
    if seconds > i64::from(LARGEST_MOMENT) {
        return Moment::new(LARGEST_MOMENT).unwrap();
    }
    Moment::new(seconds as u32).unwrap()
}

/// Whether the moment that is so far from a time is nearer than the margin, or past the last.
fn is_bad_time(now: Moment, time: Moment, offset: Offset) -> bool
    ensures { result ≡ is_bad_time now (shifted_time offset time) }
{
    let seconds = i64::from(time.get()) + offset.get();
    seconds < i64::from(now.get()) + i64::from(MARGIN) || seconds > i64::from(LARGEST_MOMENT)
}

/// The order in which activities of one moment are released.
fn release_order(activity: &Activity) -> (u32, u16, u16)
    ensures { result ≡ (activity.now.time, activity.now.identity.apid, activity.now.identity.count) }
{
    (
        activity.time.get(),
        activity.identity.apid.get(),
        activity.identity.count.get(),
    )
}

/// The activity of this request is released so much later, or at the nearest moment.
fn shift_one<A: Allocator>(activities: &mut Vec<Activity, A>, target: u32, offset: Offset)
    ensures { Holds (map (λ a. if is_of target a then shifted offset a else a) activities.old.items) activities.old activities.new }
{
    for activity in activities.iter_mut() {
        if activity.request.get() == target {
            activity.time = nearest(activity.time, offset);
        }
    }
}

/// Each activity is released so much later, or at the nearest moment.
fn shift_each<A: Allocator>(activities: &mut Vec<Activity, A>, offset: Offset)
    ensures { Holds (map (shifted offset) activities.old.items) activities.old activities.new }
{
    for activity in activities.iter_mut() {
        activity.time = nearest(activity.time, offset);
    }
}

/// The activity of this request is taken out.
fn take_out<A: Allocator>(activities: &mut Vec<Activity, A>, target: u32)
    ensures { Holds (filter (λ a. not (is_of target a)) activities.old.items) activities.old activities.new }
{
    activities.retain(|a| a.request.get() != target);
}

/// What falls due by now is taken out.
fn take_due<A: Allocator>(activities: &mut Vec<Activity, A>, now: Moment)
    ensures { Holds (filter (λ a. not (is_due now a)) activities.old.items) activities.old activities.new }
{
    activities.retain(|a| a.time.get() > now.get());
}

/// Only what falls due by now is left.
fn keep_due<A: Allocator>(activities: &mut Vec<Activity, A>, now: Moment)
    ensures items { activities.new.items ≡ filter (is_due now) activities.old.items }
    ensures few { vec_len activities.new ≤ vec_len activities.old }
{
    activities.retain(|a| a.time.get() <= now.get());
}

/// By time, application process and count. Fails where memory is refused.
fn put_in_order<A: Allocator>(activities: &mut Vec<Activity, A>) -> Result<(), AllocError>
    ensures all { IsPermutation activities.old.items activities.new.items }
    ensures few { vec_len activities.new ≡ vec_len activities.old }
    ensures ordered { OnOk result (IsSortedBy (λ a b. is_before a.time a.identity b.time b.identity) activities.new.items) }
{
    activities.sort_by_key(|a| release_order(a))
}

/// What a summary tells of an activity.
pub(crate) fn listed(activity: &Activity) -> ListedActivity
    ensures { result ≡ listed activity.now }
{
    ListedActivity {
        request: activity.request,
        identity: activity.identity,
        time: activity.time,
    }
}

/// These activities take the first places.
fn take_places(places: &mut [Option<ListedActivity>; MOST_ACTIVITIES], activities: &[Activity])
    requires { length activities.now ≤ 64 }
    ensures { places.new ≡ map (λ a. Some (listed a)) activities.now ++ drop (length activities.now) places.old }
{
    for (index, activity) in activities.iter().enumerate() {
        places[index] = Some(listed(activity));
    }
}

/// The places of a summary, the first of them taken by these activities.
fn places_of(activities: &[Activity]) -> [Option<ListedActivity>; MOST_ACTIVITIES]
    requires { length activities.now ≤ 64 }
    ensures { result ≡ places_for 64 (map listed activities.now) }
{
    let mut places = [None; MOST_ACTIVITIES];
    take_places(&mut places, activities);
    places
}

impl<A: Allocator + Copy + Drop> Schedule<A> {
    /// An empty schedule, disabled, with room for all that it ever holds. Fails where memory is refused.
    pub fn new(alloc: A) -> Result<Self, AllocError>
        ensures { IfOk result (λ s. s ≡ empty_schedule) }
    {
        let activities = Vec::with_capacity(alloc, MOST_ACTIVITIES)?;
        Ok(Schedule {
            enabled: false,
            activities,
        })
    }

    /// Whether it is enabled.
    pub fn is_enabled(&self) -> bool
        ensures { result ≡ self.now.enabled }
    {
        self.enabled
    }

    /// Its activities.
    pub fn activities(&self) -> &[Activity]
        ensures activities { result.now ≡ self.now.activities }
        ensures sound { IsSchedule self.now.activities }
    {
        &self.activities
    }

    /// Whether the activity of this request is there.
    fn is_there(&self, target: u32) -> bool
        ensures { result ≡ list_any (is_of target) self.now.activities }
    {
        self.activities.iter().any(|a| a.request.get() == target)
    }

    /// Whether the activity of this request cannot be so much later.
    fn shifts_badly(&self, now: Moment, target: u32, offset: Offset) -> bool
        ensures { result ≡ list_any (λ a. is_of target a && shifts_badly now offset a) self.now.activities }
    {
        self.activities.iter().any(|a| a.request.get() == target
            && is_bad_time(now, a.time, offset))
    }

    /// Whether an activity cannot be so much later.
    fn some_shifts_badly(&self, now: Moment, offset: Offset) -> bool
        ensures { result ≡ list_any (shifts_badly now offset) self.now.activities }
    {
        self.activities
            .iter()
            .any(|a| is_bad_time(now, a.time, offset))
    }

    /// Why these activities cannot be inserted, if they cannot: each test is of all of them, before the next.
    fn insert_fault(&self, now: Moment, activities: &Activities) -> Option<ScheduleFault>
        ensures { result ≡ failure_of now (command.Insert activities.now) self.now }
    {
        let inserted = activities.as_slice();
        if some_is_too_early(now, inserted) {
            return Some(ScheduleFault::Time);
        }
        if meets_one(&self.activities, inserted) || has_one_twice(inserted) {
            return Some(ScheduleFault::IdentityInUse);
        }
        if self.activities.len() + inserted.len() > MOST_ACTIVITIES {
            return Some(ScheduleFault::Full);
        }
        None
    }

    /// TC[11,4]: the activities are released at their times. All go in, or none: it fails with `Time` where the time of
    /// one is nearer than the margin, then with `IdentityInUse` where the identity of one is there or two have one
    /// identity, and then with `Full` where there would be more than 64; then nothing changes.
    pub fn insert(&mut self, now: Moment, activities: &Activities) -> Result<(), ScheduleFault>
        ensures { Obeys now (command.Insert activities.now) self.old self.new result }
    {
        if let Some(fault) = self.insert_fault(now, activities) {
            return Err(fault);
        }
        put_behind(&mut self.activities, activities.as_slice());
        Ok(())
    }

    /// TC[11,5]: the activity is taken out. Fails with `NotThere` where there is none; then nothing changes.
    pub fn delete(&mut self, now: Moment, target: u32) -> Result<(), ScheduleFault>
        ensures { Obeys now (command.Delete target) self.old self.new result }
    {
        if !self.is_there(target) {
            return Err(ScheduleFault::NotThere);
        }
        take_out(&mut self.activities, target);
        Ok(())
    }

    /// TC[11,7]: the activity is released so much later. Fails with `NotThere` where there is none, and with `Time` where
    /// its new time is nearer than the margin or past the last moment; then nothing changes.
    pub fn shift(&mut self, now: Moment, target: u32, offset: Offset) -> Result<(), ScheduleFault>
        ensures { Obeys now (command.Shift target offset) self.old self.new result }
    {
        if !self.is_there(target) {
            return Err(ScheduleFault::NotThere);
        }
        if self.shifts_badly(now, target, offset) {
            return Err(ScheduleFault::Time);
        }
        shift_one(&mut self.activities, target, offset);
        Ok(())
    }

    /// TC[11,15]: all activities are released so much later. Fails with `Time` where a new time is nearer than the margin
    /// or past the last moment; then nothing changes.
    pub fn shift_all(&mut self, now: Moment, offset: Offset) -> Result<(), ScheduleFault>
        ensures { Obeys now (command.ShiftAll offset) self.old self.new result }
    {
        if self.some_shifts_badly(now, offset) {
            return Err(ScheduleFault::Time);
        }
        shift_each(&mut self.activities, offset);
        Ok(())
    }

    /// TC[11,1]: activities are released as they fall due.
    pub fn enable(&mut self)
        ensures { self.new ≡ commanded command.Enable self.old }
    {
        self.enabled = true;
    }

    /// TC[11,2]: activities are not released.
    pub fn disable(&mut self)
        ensures { self.new ≡ commanded command.Disable self.old }
    {
        self.enabled = false;
    }

    /// TC[11,3]: all activities are taken out, and the schedule is disabled.
    pub fn reset(&mut self)
        ensures { self.new ≡ commanded command.Reset self.old }
    {
        self.disable();
        self.activities.clear();
    }

    /// What falls due by now, in the order in which it is released. It stays where it is. Fails where memory is refused.
    pub(crate) fn due_by(&self, alloc: A, now: Moment) -> Result<Vec<Activity, A>, AllocError>
        ensures due { IfOk result (λ due. FallDue now self.now due.items) }
        ensures few { IfOk result (λ due. vec_len due ≤ 64) }
    {
        let mut due = Vec::from_slice(alloc, &self.activities)?;
        keep_due(&mut due, now);
        put_in_order(&mut due)?;
        Ok(due)
    }

    /// Takes out what falls due by now.
    pub(crate) fn drop_due(&mut self, now: Moment)
        ensures { self.new ≡ after_due now self.old }
    {
        take_due(&mut self.activities, now);
    }

    /// Takes out what falls due by now, and gives it by time, application process and count. Fails where memory is
    /// refused; then nothing changes.
    pub fn due(&mut self, alloc: A, now: Moment) -> Result<Vec<Activity, A>, AllocError>
        ensures due { IfOk result (λ due. FallDue now self.old due.items) }
        ensures left { Becomes self.old self.new (after_due now self.old) result }
    {
        let due = self.due_by(alloc, now)?;
        self.drop_due(now);
        Ok(due)
    }

    /// TC[11,17]: what the schedule holds.
    pub fn summary(&self) -> Summary
        ensures { result ≡ summary_of self.now }
    {
        Summary {
            enabled: self.enabled,
            activities: places_of(&self.activities),
        }
    }
}
