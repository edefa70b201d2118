//! Locks that never open.
ghost use Rattle.std.specs.Prelude.{◌≡◌};
ghost use Rattle.std.specs.List.{list_any};
ghost use Rattle.tc_book.specs.Stacks.{is_interlocked};
ghost use Rattle.tc_book.specs.Waiting.{is_locked as is_locked_in};
ghost use Rattle.tc_urgent.specs.Judging.{awaited, never_opens, is_locked_forever};

use std::alloc::Allocator;
use tc_book::Records;
use tc_types::{Place, Request};

/// The places where a line stays that is never completed.
const LOST_PLACES: [Place; 4] = [
    Place::Failed,
    Place::Withdrawn,
    Place::Deleted,
    Place::Closed,
];

/// The request on the line that request `n` waits for, if that line is not at Completed.
fn awaited<A: Allocator + Copy + Drop>(book: &Records<A>, n: u32) -> Option<u32>
    ensures { result ≡ awaited book.now.book n }
{
    if !book.is_interlocked(n) {
        return None;
    }
    let origin = book.request(n)?.origin?;
    let line = origin.after?;
    Some(n.saturating_sub(origin.line.saturating_sub(line)))
}

/// Whether the lock of request `n` never opens, by a chain of at most `most` lines.
fn never_opens<A: Allocator + Copy + Drop>(book: &Records<A>, n: u32, most: u32) -> bool
    ensures { result ≡ never_opens most book.now.book n }
{
    if most == 0 {
        return false;
    }
    match awaited(book, n) {
        Some(before) => { book.stands(before, &LOST_PLACES) || never_opens(book, before, most - 1) }
        None => false,
    }
}

/// Whether the lock of one of these requests never opens.
fn is_one_never<A: Allocator + Copy + Drop>(book: &Records<A>, numbers: &[u32], most: u32) -> bool
    ensures { result ≡ list_any (never_opens most book.now.book) numbers.now }
{
    numbers.iter().any(|n| never_opens(book, *n, most))
}

/// Whether one of these requests waits for a line of its stack.
fn is_one_interlocked<A: Allocator + Copy + Drop>(book: &Records<A>, numbers: &[u32]) -> bool
    ensures { result ≡ list_any (is_interlocked book.now.book) numbers.now }
{
    numbers.iter().any(|n| book.is_interlocked(*n))
}

/// Whether the lock of a request never opens, or that of an activity that it inserts.
pub(crate) fn is_locked_forever<A: Allocator + Copy + Drop>(
    book: &Records<A>,
    request: &Request,
) -> bool
    ensures { result ≡ is_locked_forever book.now.book request.now }
{
    let most = book.count();
    never_opens(book, request.number.get(), most)
        || is_one_never(book, request.body.command.inserted().as_slice(), most)
}

/// Whether a request waits for a line of its stack, or an activity that it inserts does.
pub(crate) fn is_locked<A: Allocator + Copy + Drop>(book: &Records<A>, request: &Request) -> bool
    ensures { result ≡ is_locked_in book.now.book request.now }
{
    book.is_interlocked(request.number.get())
        || is_one_interlocked(book, request.body.command.inserted().as_slice())
}
