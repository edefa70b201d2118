//! The ways of the requests that are shown.
ghost use Rattle.std.specs.Prelude.{◌≡◌, IfOk, List, true};
ghost use Rattle.std.specs.List.{AllByRecursion};
ghost use Rattle.tc_types.specs.declared.requests.Request.{Request as SomeRequest};
ghost use Rattle.tc_types.specs.History.{rows_of};
ghost use Rattle.tc_book.specs.Book.{Book};
ghost use Rattle.tc_view.specs.Gathered.{AreTrailsOf, HasLast, IsTrailOf};
ghost use Rattle.tc_view.specs.Ways.{AreWaysOf, IsWayOf, is_open};

use crate::adding::{add, add_held};
use crate::gathering::Gathered;
use std::alloc::{AllocError, Allocator};
use tc_book::Records;
use tc_types::{Move, Place, Request};
use tc_wall::Way;

/// The way of a request, which holds its moves.
#[derive(Drop)]
pub(crate) struct Trail<A: Allocator + Copy + Drop> {
    /// What was entered.
    pub(crate) request: Request,
    /// Where it stands.
    pub(crate) place: Place,
    /// The last of its moves.
    pub(crate) moves: Vec<Move, A>,
    /// How many it has.
    pub(crate) moved: usize,
}

/// Those of these rows that are of request `n`. Fails where memory is refused.
fn rows_of<A: Allocator + Copy>(alloc: A, rows: &[Move], n: u32) -> Result<Vec<Move, A>, AllocError>
    ensures { IfOk result (λ found. found.items ≡ rows_of n rows.now) }
{
    rows.iter()
        .filter(|row| row.request.get() == n)
        .copied()
        .collect(alloc)
}

/// The way of a request that is open. Fails where memory is refused.
fn trail_of<A: Allocator + Copy + Drop>(
    alloc: A,
    records: &Records<A>,
    gathered: &Gathered<A>,
    request: &Request,
) -> Result<Trail<A>, AllocError>
    requires open { is_open records.now.book request.now ≡ true }
    requires last { HasLast gathered.now.counts.items gathered.now.kept.items records.now.book.history request.now }
    ensures { IfOk result (IsTrailOf records.now.book request.now) }
{
    let number = request.number.get();
    let moves = rows_of(alloc, &gathered.kept, number)?;
    Ok(Trail {
        request: *request,
        place: records.place_of(number).unwrap(),
        moves,
        moved: gathered.counts[number as usize - 1],
    })
}

/// The ways of these requests, which are open. Fails where memory is refused.
pub(crate) fn trails_of<A: Allocator + Copy + Drop>(
    alloc: A,
    records: &Records<A>,
    gathered: &Gathered<A>,
    requests: &[Request],
) -> Result<Vec<Trail<A>, A>, AllocError>
    requires open { AllByRecursion (λ r. is_open records.now.book r ≡ true) requests.now }
    requires last { AllByRecursion (HasLast gathered.now.counts.items gathered.now.kept.items records.now.book.history) requests.now }
    ensures { IfOk result (λ trails. AreTrailsOf records.now.book requests.now trails.items) }
{
    let mut trails = Vec::new(alloc);
    for request in requests {
        add_held(&mut trails, trail_of(alloc, records, gathered, request)?)?;
    }
    Ok(trails)
}

/// A way as the wall shows it.
fn way_of<A: Allocator + Copy + Drop>(trail: &Trail<A>) -> Way<'_>
    ensures { (book : Book) (r : SomeRequest) → IsTrailOf book r trail.now → IsWayOf book r result }
{
    Way {
        request: trail.request,
        place: trail.place,
        moves: &trail.moves,
        moved: trail.moved,
    }
}

/// These ways. Fails where memory is refused.
pub(crate) fn ways_of<'a, A: Allocator + Copy + Drop>(
    alloc: A,
    trails: &'a [Trail<A>],
) -> Result<Vec<Way<'a>, A>, AllocError>
    ensures { (book : Book) (requests : List SomeRequest) → AreTrailsOf book requests trails.now → IfOk result (λ ways. AreWaysOf book requests ways.items) }
{
    let mut ways = Vec::new(alloc);
    for trail in trails {
        add(&mut ways, &way_of(trail))?;
    }
    Ok(ways)
}
