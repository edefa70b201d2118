//! The requests that are open, most urgent first.
ghost use Rattle.std.specs.Prelude.{◌≡◌, ◌<◌, ◌++◌, ◌∷◌, [], IfOk, List, OnOk, length, take};
ghost use Rattle.std.specs.List.{cons_option};
ghost use Rattle.tc_types.specs.declared.requests.Request.{Request as SomeRequest};
ghost use Rattle.tc_view.specs.Gathered.{IsOpenOf};
ghost use Rattle.tc_view.specs.Ways.{if_open, is_open, is_open_at, open_in, open_of};

use crate::adding::add;
use crate::urgents::request_of;
use std::alloc::{AllocError, Allocator};
use tc_book::{FINAL_PLACES, Records};
use tc_types::{Place, Request};
use tc_urgent::UrgentLine;
use tc_wall::MOST_OPEN;

/// The first requests that are open, and how many are.
#[derive(Drop)]
pub(crate) struct Open<A: Allocator + Copy + Drop> {
    /// The first of them.
    pub(crate) first: Vec<Request, A>,
    /// How many there are.
    pub(crate) count: usize,
}

/// Whether a request at this place is open.
fn is_open_at(place: Option<Place>) -> bool
    ensures { result ≡ is_open_at place }
{
    match place {
        Some(place) => !place.is_one_of(&FINAL_PLACES),
        None => false,
    }
}

/// Whether a request is.
fn is_open<A: Allocator + Copy + Drop>(records: &Records<A>, request: &Request) -> bool
    ensures { result ≡ is_open records.now.book request.now }
{
    is_open_at(records.place_of(request.number.get()))
}

/// The request of a line, if it is open.
fn open_in<A: Allocator + Copy + Drop>(records: &Records<A>, line: &UrgentLine) -> Option<Request>
    ensures { result ≡ open_in records.now.book line.now }
{
    let request = request_of(records, line)?;
    if !is_open(records, &request) {
        return None;
    }
    Some(request)
}

/// One more is open: it is one of the first, while there are few. Fails if memory is refused.
fn add_first<A: Allocator>(first: &mut Vec<Request, A>, request: &Request) -> Result<(), AllocError>
    ensures { (seen : List SomeRequest) → first.old.items ≡ take MOST_OPEN seen → OnOk result (first.new.items ≡ take MOST_OPEN (seen ++ request.now ∷ [])) }
{
    if first.len() >= MOST_OPEN {
        return Ok(());
    }
    add(first, request)?;
    Ok(())
}

/// One more is open, or none. Fails if memory is refused.
fn add_open<A: Allocator + Copy + Drop>(
    found: &mut Open<A>,
    request: &Option<Request>,
) -> Result<(), AllocError>
    requires few { found.old.count < usize.MAX }
    ensures { (seen : List SomeRequest) → IsOpenOf seen found.old → OnOk result (IsOpenOf (seen ++ cons_option request.now []) found.new) }
{
    let Some(request) = request else {
        return Ok(());
    };
    add_first(&mut found.first, request)?;
    found.count += 1;
    Ok(())
}

/// The requests of these lines that are open, in the order of the lines. Fails if memory is refused.
pub(crate) fn open_of<A: Allocator + Copy + Drop>(
    alloc: A,
    records: &Records<A>,
    lines: &[UrgentLine],
) -> Result<Open<A>, AllocError>
    ensures { IfOk result (λ found. IsOpenOf (open_of records.now.book lines.now) found) }
{
    let mut found = Open {
        first: Vec::new(alloc),
        count: 0,
    };
    for line in lines {
        add_open(&mut found, &open_in(records, line))?;
    }
    Ok(found)
}
