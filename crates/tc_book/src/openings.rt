//! How a book is opened over the tables that were left.
ghost use Rattle.std.specs.Prelude.{◌≡◌, IfOk, OnOk, drop, length};
ghost use Rattle.tc_types.specs.Tables.{applied};
ghost use Rattle.tc_types.specs.Images.{rows_in};
ghost use Rattle.tc_book.specs.declared.firsts.First.TheVariants.{Plain};
ghost use Rattle.tc_book.specs.Good.{IsGoodBook};
ghost use Rattle.tc_book.specs.Opening.{opened_book};
ghost use Rattle.tc_book.specs.Sound.{IsSound, Judges, book_of};
ghost use Rattle.tc_book.specs.Tables.{image_of};

use crate::drafts::{Draft, Needs, make_room};
use crate::firsts::First;
use crate::records::Records;
use std::alloc::{AllocError, Allocator};
use tc_proc::ReopenFault;
use tc_types::{Image, Moment};

/// A book that was opened, and what that wrote.
#[derive(Drop)]
pub struct Opened<A: Allocator + Copy + Drop> {
    /// The book.
    pub records: Records<A>,
    /// The moves of the opening, and the batch that writes them.
    pub draft: Draft<A>,
}

/// Moves what was on its way, and says what that wrote.
fn write_opening<A: Allocator + Copy + Drop>(
    records: &mut Records<A>,
    alloc: A,
    moment: Moment,
) -> Result<Draft<A>, AllocError>
    ensures book { OnOk result (records.new.book ≡ opened_book moment records.old.book) }
    ensures good { OnOk result (IsGoodBook records.new.book) }
    ensures first { IfOk result (λ draft. draft.first ≡ Plain) }
    ensures moves { IfOk result (λ draft. draft.moves.items ≡ drop (length records.old.book.history) records.new.book.history) }
    ensures batch { IfOk result (λ draft. applied draft.batch.items (image_of records.old.book) ≡ image_of records.new.book) }
{
    let held = records.held(alloc)?;
    let count = records.count_opened();
    let mark = records.mark();
    let needs = Needs {
        rows: count,
        ..Needs::NONE
    };
    let draft = make_room(records, alloc, First::Plain, needs)?;
    records.open_again(moment, &held);
    Ok(records.fill(mark, draft))
}

/// Opens the book that these tables tell of, at a moment: each request that was on its way is moved by the desk itself. Answers
/// `Unsound` where no desk could have written the tables, and `Memory` where that is refused. The batch turns the tables into those of
/// the book that was opened.
pub fn open<A: Allocator + Copy + Drop>(
    alloc: A,
    image: &Image,
    moment: Moment,
) -> Result<Opened<A>, ReopenFault>
    ensures book { IfOk result (λ opened. opened.records.book ≡ opened_book moment (book_of (rows_in image.now))) }
    ensures good { IfOk result (λ opened. IsGoodBook opened.records.book) }
    ensures judged { Judges (rows_in image.now) (IsSound (rows_in image.now)) result }
    ensures first { IfOk result (λ opened. opened.draft.first ≡ Plain) }
    ensures moves { IfOk result (λ opened. opened.draft.moves.items ≡ drop (length image.now.moves.items) opened.records.book.history) }
    ensures batch { IfOk result (λ opened. applied opened.draft.batch.items (rows_in image.now) ≡ image_of opened.records.book) }
{
    let mut records = Records::reopen(alloc, image)?;
    let draft = write_opening(&mut records, alloc, moment)?;
    Ok(Opened { records, draft })
}
