//! What a command is, as far as its target and its time hang on it.
ghost use Rattle.std.specs.Prelude.{◌≡◌};
ghost use Rattle.tc_script.specs.Sorts.{is_schedule_sort, scheduled, sort_of};

use crate::verbs::same;

/// What a command is, by its service and its subtype.
#[derive(Clone, Copy, Debug, PartialEq, Eq)]
pub enum Sort {
    /// An insert, TC[11,4].
    Insert,
    /// A deletion, TC[11,5].
    Delete,
    /// A shift of one activity, TC[11,7].
    Shift,
    /// A shift of all activities, TC[11,15].
    ShiftAll,
    /// Another command of service 11.
    Schedule,
    /// A command of another service.
    Other,
}

/// What a command of the on-board schedule is.
fn scheduled(subtype: &[u8]) -> Sort
    ensures { result ≡ scheduled subtype.now }
{
    if same(subtype, b"4") {
        Sort::Insert
    } else if same(subtype, b"5") {
        Sort::Delete
    } else if same(subtype, b"7") {
        Sort::Shift
    } else if same(subtype, b"15") {
        Sort::ShiftAll
    } else {
        Sort::Schedule
    }
}

impl Sort {
    /// What a command with this subtype is, of service 11 or of another.
    pub fn of(is_scheduling: bool, subtype: &[u8]) -> Sort
        ensures { result ≡ sort_of is_scheduling subtype.now }
    {
        if is_scheduling {
            scheduled(subtype)
        } else {
            Sort::Other
        }
    }

    /// Whether it is of the on-board schedule.
    pub fn is_schedule(self) -> bool
        ensures { result ≡ is_schedule_sort self }
    {
        !matches!(self, Sort::Other)
    }
}
