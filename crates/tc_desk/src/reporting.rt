//! What a report on a command of the on-board schedule moves besides its own request.
ghost use Rattle.std.specs.Prelude.{◌≡◌};
ghost use Rattle.tc_desk.specs.Effects.{MayHold, OnlyMoves, is_completed, is_failed, inserted, removed, emptied, besides_at};

use crate::moving::{follow, try_move};
use std::alloc::Allocator;
use tc_board::Mirror;
use tc_book::{Records, Stamp};
use tc_types::{Cause, Command, Place, Request, Verification};

/// Whether a report tells a completion.
fn is_completed(verification: &Verification) -> bool
    ensures { result ≡ is_completed verification.now }
{
    match verification {
        Verification::Completed => true,
        Verification::Accepted
        | Verification::AcceptanceFailed { .. }
        | Verification::Started
        | Verification::StartFailed { .. }
        | Verification::StepDone { .. }
        | Verification::StepFailed { .. }
        | Verification::CompletionFailed { .. } => false,
    }
}

/// Whether a report tells a failure.
fn is_failed(verification: &Verification) -> bool
    ensures { result ≡ is_failed verification.now }
{
    match verification {
        Verification::AcceptanceFailed { .. }
        | Verification::StartFailed { .. }
        | Verification::StepFailed { .. }
        | Verification::CompletionFailed { .. } => true,
        Verification::Accepted
        | Verification::Started
        | Verification::StepDone { .. }
        | Verification::Completed => false,
    }
}

/// A completed insert schedules its activities, a failed one fails them.
fn insert<A: Allocator + Copy + Drop>(
    records: &mut Records<A>,
    stamp: &Stamp,
    verification: &Verification,
    activities: &[u32],
)
    requires { MayHold records.old (inserted stamp.now verification.now activities.now records.old.book) }
    ensures book { records.new.book ≡ inserted stamp.now verification.now activities.now records.old.book }
    ensures only { OnlyMoves records.old records.new }
{
    let from = [Place::Riding, Place::Doubtful];
    let why = Cause::Insert;
    if is_completed(verification) {
        follow(records, stamp, activities, &from, Place::Scheduled, why);
    } else if is_failed(verification) {
        follow(records, stamp, activities, &from, Place::Failed, why);
    }
}

/// A request that stands in the mirror is deleted, if it is scheduled.
fn remove<A: Allocator + Copy + Drop>(
    records: &mut Records<A>,
    stamp: &Stamp,
    mirror: &Mirror<A>,
    n: u32,
)
    requires { MayHold records.old (removed stamp.now mirror.now.told records.old.book n) }
    ensures book { records.new.book ≡ removed stamp.now mirror.now.told records.old.book n }
    ensures only { OnlyMoves records.old records.new }
{
    if mirror.is_there(n) {
        try_move(
            records,
            stamp,
            n,
            &[Place::Scheduled],
            Place::Deleted,
            Cause::Reset,
        );
    }
}

/// A completed reset deletes what stood in the mirror and is scheduled, in order of number.
fn empty<A: Allocator + Copy + Drop>(records: &mut Records<A>, stamp: &Stamp, mirror: &Mirror<A>)
    requires { MayHold records.old (emptied stamp.now mirror.now.told records.old.book) }
    ensures book { records.new.book ≡ emptied stamp.now mirror.now.told records.old.book }
    ensures only { OnlyMoves records.old records.new }
{
    for n in 1..records.count() + 1 {
        remove(records, stamp, mirror, n);
    }
}

/// What a report on this request moves besides.
pub(crate) fn hear_besides<A: Allocator + Copy + Drop>(
    records: &mut Records<A>,
    stamp: &Stamp,
    mirror: &Mirror<A>,
    verification: &Verification,
    request: &Option<Request>,
)
    requires { MayHold records.old (besides_at stamp.now mirror.now.told verification.now request.now records.old.book) }
    ensures book { records.new.book ≡ besides_at stamp.now mirror.now.told verification.now request.now records.old.book }
    ensures only { OnlyMoves records.old records.new }
{
    let Some(request) = request else {
        return;
    };
    match &request.body.command {
        Command::InsertActivities(_) => {
            let activities = request.body.command.inserted();
            insert(records, stamp, verification, activities.as_slice());
        }
        Command::DeleteActivity { target } => {
            if is_completed(verification) {
                let from = [Place::Riding, Place::Scheduled, Place::Doubtful];
                try_move(
                    records,
                    stamp,
                    *target,
                    &from,
                    Place::Deleted,
                    Cause::Delete,
                );
            }
        }
        Command::ResetSchedule => {
            if is_completed(verification) {
                empty(records, stamp, mirror);
            }
        }
        Command::Plain { .. }
        | Command::EnableSchedule
        | Command::DisableSchedule
        | Command::ShiftActivity { .. }
        | Command::ShiftAll { .. }
        | Command::SummarizeAll => {}
    }
}
