//! The activities of the on-board schedule, and the summary that reports them (ECSS-E-ST-70-41C, 6.11 and 8.11).
use crate::numbers::{Moment, RequestNumber};
use crate::requests::{Ack, Identity, Outcome};

/// How many activities the on-board schedule holds at most (this desk's own).
pub const MOST_ACTIVITIES: usize = 64;

/// An activity of the on-board schedule: a request, and when it is released.
#[derive(Clone, Copy, Debug, PartialEq, Eq)]
pub struct Activity {
    /// The request.
    pub request: RequestNumber,
    /// Its name on board.
    pub identity: Identity,
    /// The reports of success that it asks for.
    pub ack: Ack,
    /// How the rehearsal spacecraft will behave.
    pub outcome: Outcome,
    /// Its release time.
    pub time: Moment,
}

/// What a summary tells of an activity.
#[derive(Clone, Copy, Debug, PartialEq, Eq)]
pub struct ListedActivity {
    /// The request.
    pub request: RequestNumber,
    /// Its name on board.
    pub identity: Identity,
    /// Its release time.
    pub time: Moment,
}

/// What TM[11,13] carries: the status of the schedule (this desk's own) and its activities. There are as many places as
/// the schedule holds activities, and an empty place tells nothing.
#[derive(Clone, Copy, Debug, PartialEq, Eq)]
pub struct Summary {
    /// Whether the schedule is enabled.
    pub enabled: bool,
    /// The activities.
    pub activities: [Option<ListedActivity>; MOST_ACTIVITIES],
}
