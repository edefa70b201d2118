//! The inserts that have not ended, and the activities that they name.
ghost use Rattle.std.specs.Prelude.{◌≡◌, ◌++◌, [], IfOk, OnOk};
ghost use Rattle.std.specs.List.{cons_option, find};
ghost use Rattle.std.specs.Option.{option_and_then, option_copied};
ghost use Rattle.tc_book.specs.Book.{request_at};
ghost use Rattle.tc_book.specs.Good.{IsGoodBook};
ghost use Rattle.tc_urgent.specs.Judging.{names, open_insert, open_inserts};

use crate::judging::is_final;
use std::alloc::{AllocError, Allocator};
use tc_book::{FINAL_PLACES, Records};
use tc_types::Request;

/// Appends an item, if there is one. Fails if memory is refused.
pub(crate) fn add_one<T: Copy, A: Allocator>(
    items: &mut Vec<T, A>,
    one: Option<T>,
) -> Result<(), AllocError>
    ensures { OnOk result (items.new.items ≡ items.old.items ++ cons_option one []) }
{
    if let Some(one) = one {
        items.push(one)?;
    }
    Ok(())
}

/// Request `n`, if it is an insert that has not ended.
fn open_insert<A: Allocator + Copy + Drop>(book: &Records<A>, n: u32) -> Option<Request>
    requires { IsGoodBook book.now.book }
    ensures { result ≡ option_and_then (open_insert book.now.book) (request_at book.now.book n) }
{
    if is_final(book.place_of(n)) {
        return None;
    }
    let request = book.request(n)?;
    if request.body.command.is_insert() && !book.stands(request.number.get(), &FINAL_PLACES) {
        Some(request)
    } else {
        None
    }
}

/// The inserts that have not ended, by number. Fails if memory is refused.
pub(crate) fn open_inserts<A: Allocator + Copy + Drop>(
    alloc: A,
    book: &Records<A>,
) -> Result<Vec<Request, A>, AllocError>
    ensures { IfOk result (λ inserts. inserts.items ≡ open_inserts book.now.book) }
{
    // read for the proof alone: the book is good
    let _mark = book.mark();
    let mut inserts = Vec::new(alloc);
    for at in 0..book.count() {
        add_one(&mut inserts, open_insert(book, at + 1))?;
    }
    Ok(inserts)
}

/// Whether a request names this one as an activity.
fn names(request: &Request, n: u32) -> bool
    ensures { result ≡ names n request.now }
{
    request
        .body
        .command
        .inserted()
        .as_slice()
        .iter()
        .any(|named| *named == n)
}

/// The first of these inserts that names request `n`.
pub(crate) fn insert_of(inserts: &[Request], n: u32) -> Option<&Request>
    ensures { option_copied result ≡ find (names n) inserts.now }
{
    inserts.iter().find(|insert| names(insert, n))
}
