//! Moves that are made only where they may be: what the link tells, and what follows from it.
ghost use Rattle.std.specs.Prelude.{◌≡◌, [], ◌∷◌};
ghost use Rattle.tc_types.specs.declared.history.places.Place.TheVariants.{Riding};
ghost use Rattle.tc_desk.specs.Effects.{MayHold, MayMove, OnlyMoves, tried, followed, tried_with, reported};

use crate::commands::activities_at;
use std::alloc::Allocator;
use tc_book::{Records, Stamp};
use tc_types::{Cause, Place, RequestNumber, is_lawful};

/// Moves request `n`, if it stands at one of these places. Only its approvers move one with the cause `approve`.
pub(crate) fn try_move<A: Allocator + Copy + Drop>(
    records: &mut Records<A>,
    stamp: &Stamp,
    n: u32,
    places: &[Place],
    to: Place,
    cause: Cause,
)
    requires room { MayHold records.old (tried stamp.now records.old.book n places.now to cause) }
    requires may { MayMove places.now to cause }
    ensures book { records.new.book ≡ tried stamp.now records.old.book n places.now to cause }
    ensures only { OnlyMoves records.old records.new }
{
    let Some(request) = records.number_of(n) else {
        return;
    };
    if records.stands(n, places) {
        records.record(*stamp, request, to, cause);
    }
}

/// Moves each of these activities, in their order, if it stands at one of these places.
pub(crate) fn follow<A: Allocator + Copy + Drop>(
    records: &mut Records<A>,
    stamp: &Stamp,
    activities: &[u32],
    places: &[Place],
    to: Place,
    cause: Cause,
)
    requires room { MayHold records.old (followed stamp.now records.old.book activities.now places.now to cause) }
    requires may { MayMove places.now to cause }
    ensures book { records.new.book ≡ followed stamp.now records.old.book activities.now places.now to cause }
    ensures only { OnlyMoves records.old records.new }
{
    for activity in activities {
        try_move(records, stamp, *activity, places, to, cause);
    }
}

/// Moves a request, if it stands at one of these places; and each of its activities, if it rides with it.
pub(crate) fn try_move_with<A: Allocator + Copy + Drop>(
    records: &mut Records<A>,
    stamp: &Stamp,
    request: RequestNumber,
    places: &[Place],
    to: Place,
    cause: Cause,
)
    requires room { MayHold records.old (tried_with stamp.now records.old.book request places.now to cause) }
    requires may { MayMove places.now to cause }
    requires rides { MayMove (Riding ∷ []) to cause }
    ensures book { records.new.book ≡ tried_with stamp.now records.old.book request places.now to cause }
    ensures only { OnlyMoves records.old records.new }
{
    if records.stands(request.get(), places) {
        let activities = activities_at(records, request.get());
        records.record(*stamp, request, to, cause);
        let from = [Place::Riding];
        follow(records, stamp, activities.as_slice(), &from, to, cause);
    }
}

/// Moves the request of a report to the place that the report asks for, if that is lawful.
pub(crate) fn report<A: Allocator + Copy + Drop>(
    records: &mut Records<A>,
    stamp: &Stamp,
    request: RequestNumber,
    to: Place,
)
    requires { MayHold records.old (reported stamp.now records.old.book request to) }
    ensures book { records.new.book ≡ reported stamp.now records.old.book request to }
    ensures only { OnlyMoves records.old records.new }
{
    if is_lawful(records.place_of(request.get()), to, Cause::Report) {
        records.record(*stamp, request, to, Cause::Report);
    }
}
