//! What flies to the spacecraft, and what it takes from the link.
use crate::link::inserts::Activities;
use crate::numbers::{Offset, RequestNumber};
use crate::requests::{Ack, Identity, Outcome};

/// A command of the on-board schedule, as it flies (ECSS-E-ST-70-41C, 8.11). An activity is found by the number of its
/// request (this desk's own).
#[derive(Clone, Copy, Debug, PartialEq, Eq)]
pub enum ScheduleCommand {
    /// TC[11,1]: enable the schedule.
    Enable,
    /// TC[11,2]: disable the schedule.
    Disable,
    /// TC[11,3]: reset the schedule.
    Reset,
    /// TC[11,4]: insert these activities.
    Insert(Activities),
    /// TC[11,5]: delete the activity `target`.
    Delete { target: u32 },
    /// TC[11,7]: shift the activity `target` in time.
    Shift { target: u32, offset: Offset },
    /// TC[11,15]: shift all activities in time.
    ShiftAll { offset: Offset },
    /// TC[11,17]: report a summary of all activities.
    Summarize,
}

/// What a request asks of the spacecraft.
#[derive(Clone, Copy, Debug, PartialEq, Eq)]
pub enum Task {
    /// Something that behaves so.
    Plain(Outcome),
    /// A command of the on-board schedule.
    Schedule(ScheduleCommand),
}

/// The part of a request that flies.
#[derive(Clone, Copy, Debug, PartialEq, Eq)]
pub struct Payload {
    /// Its name on board.
    pub identity: Identity,
    /// The reports of success that it asks for.
    pub ack: Ack,
    /// What it asks.
    pub task: Task,
}

/// A request on board.
#[derive(Clone, Copy, Debug, PartialEq, Eq)]
pub struct Telecommand {
    /// Its number.
    pub request: RequestNumber,
    /// Its name on board.
    pub identity: Identity,
    /// The reports of success that it asks for.
    pub ack: Ack,
    /// What it asks.
    pub task: Task,
}
