//! The tables that say again what others tell: where each request stands, how many stand at each place, and which stacks were loaded.
ghost use Rattle.std.specs.Prelude.{◌≡◌, ◌↔◌, ◌+◌, ◌<◌, ◌≤◌, ◌^◌, List, length, map, count_by, MatchOption, IsTrue};
ghost use Rattle.std.specs.List.{cons_option};
ghost use Rattle.tc_types.specs.declared.rides.Ride.{Ride as SomeRide};
ghost use Rattle.tc_types.specs.declared.tables.cargo.Cargo.{Cargo as SomeCargo};
ghost use Rattle.tc_types.specs.declared.tables.rows.PlacedRequest.{PlacedRequest as SomePlaced};
ghost use Rattle.tc_types.specs.declared.tables.rows.LoadedStack.{LoadedStack as SomeStack};
ghost use Rattle.tc_book.specs.Batch.{tally_of, tallies_of};
ghost use Rattle.tc_book.specs.Cargoes.{first_alone, with_rides, alone};
ghost use Rattle.tc_book.specs.Known.{told_requests, IsPlaced};
ghost use Rattle.tc_book.specs.Opening.{is_opened};
ghost use Rattle.tc_book.specs.Stacks.{stacks_of};
ghost use Rattle.tc_book.specs.Tables.{placed};

use crate::histories::History;
use crate::records::openings::OPENED;
use crate::stacks::begun_by;
use std::alloc::Allocator;
use tc_types::{
    ALL_PLACES, Command, LoadedStack, PLACES, Place, PlacedRequest, Request, Tally, is_same_name,
};

/// How many rows have a number.
const NUMBERS: usize = 4_294_967_295;

/// Whether a command is as the row of its request tells it: an insert names one activity there.
fn is_first_alone(command: &Command) -> bool
    ensures { (more : List SomeRide) → IsTrue result ↔ (first_alone (with_rides more command.now) ≡ command.now) }
{
    match command {
        Command::InsertActivities(rides) => rides.len() == 1,
        _ => true,
    }
}

/// Whether the row of a request says the place where the history leaves it, and of an insert the first activity alone.
fn is_placed<A: Allocator + Copy + Drop>(history: &History<A>, row: &PlacedRequest) -> bool
    ensures { (cargo : List SomeCargo) → IsTrue result ↔ IsPlaced history.now.rows cargo row.now }
{
    let at = history.place_of(row.request.number.get());
    at.unwrap_or(Place::Entered).is_one_of(&[row.place])
        && is_first_alone(&row.request.body.command)
}

/// Whether each request's row says the place where the history leaves it, and of an insert the first activity alone.
pub(crate) fn are_placed<A: Allocator + Copy + Drop>(
    history: &History<A>,
    rows: &[PlacedRequest],
) -> bool
    ensures { (cargo : List SomeCargo) → IsTrue result ↔ (rows.now ≡ map (placed history.now.rows) (map alone (told_requests cargo rows.now))) }
{
    for row in rows {
        if !is_placed(history, row) {
            return false;
        }
    }
    true
}

/// Whether two tallies are the same.
fn is_same_tally(a: &Tally, b: &Tally) -> bool
    ensures { IsTrue result ↔ (a.now ≡ b.now) }
{
    a.place.number() == b.place.number() && a.amount == b.amount
}

/// The tally of a place, by the amounts of all.
fn tally_of(amounts: &[u32; PLACES], place: Place) -> Tally
    ensures { result ≡ tally_of amounts.now place }
{
    Tally {
        place,
        amount: amounts[usize::from(place.number()) - 1],
    }
}

/// Whether these are the tallies of all places, of these amounts.
pub(crate) fn are_tallied(tallies: &[Tally], amounts: &[u32; PLACES]) -> bool
    ensures { IsTrue result ↔ (tallies.now ≡ tallies_of amounts.now) }
{
    if tallies.len() != PLACES {
        return false;
    }
    for at in 0..PLACES {
        if !is_same_tally(&tallies[at], &tally_of(amounts, ALL_PLACES[at])) {
            return false;
        }
    }
    true
}

/// Whether two stacks are the same.
fn is_same_stack(a: &LoadedStack, b: &LoadedStack) -> bool
    ensures { IsTrue result ↔ (a.now ≡ b.now) }
{
    is_same_name(&a.name, &b.name) && is_same_name(&a.author, &b.author) && a.critical == b.critical
}

/// The stacks behind the one that was begun, if one was; `None` where it is not the first of these.
fn rest_behind<'a>(
    stacks: &'a [LoadedStack],
    begun: Option<LoadedStack>,
) -> Option<&'a [LoadedStack]>
    ensures { MatchOption result ((others : List SomeStack) → ¬ (stacks.now ≡ cons_option begun others)) (λ rest. stacks.now ≡ cons_option begun rest.now) }
{
    let Some(begun) = begun else {
        return Some(stacks);
    };
    let (first, rest) = stacks.split_first()?;
    if is_same_stack(first, &begun) {
        Some(rest)
    } else {
        None
    }
}

/// Whether these are the stacks that the requests came with.
pub(crate) fn are_stacks(requests: &[Request], stacks: &[LoadedStack]) -> bool
    ensures { IsTrue result ↔ (stacks.now ≡ stacks_of requests.now) }
{
    let mut rest = stacks;
    for request in requests {
        match rest_behind(rest, begun_by(requests, request)) {
            None => return false,
            Some(others) => rest = others,
        }
    }
    rest.is_empty()
}

/// Whether the rows of an opening still find numbers behind so many.
pub(crate) fn has_numbers(moves: usize, rows: &[PlacedRequest]) -> bool
    requires { moves < 2 ^ 32 }
    ensures { IsTrue result ↔ (moves + count_by (λ (p : SomePlaced). is_opened p.place) rows.now < 2 ^ 32) }
{
    let opened = rows
        .iter()
        .filter(|row| row.place.is_one_of(&OPENED))
        .count();
    opened <= NUMBERS - moves
}
