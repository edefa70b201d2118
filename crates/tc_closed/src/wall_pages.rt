//! The wall of tables alone, over which no desk is opened: it is of the book that they tell of, with no move of an opening.
ghost use Rattle.std.specs.Prelude.{◌≡◌, ◌≤◌, ◌⊎◌, IfErr, IfOk, OnOk};
ghost use Rattle.std.specs.String.{string_bytes, string_len};
ghost use Rattle.sqlite.specs.Held.{state};
ghost use Rattle.sqlite.specs.State.{HasCleanDisk};
ghost use Rattle.tc_closed.specs.WallPages.{EndsPage, ReadsWall};
ghost use Rattle.tc_closed.specs.Closed.{AreJudged};
ghost use Rattle.tc_types.specs.Images.{rows_in};
ghost use Rattle.tc_book.specs.Sound.{IsSound, book_of};
ghost use Rattle.tc_view.specs.Shown.{IsFilePage};

use crate::shift_pages::refusal_of;
use sqlite::Alter;
use std::alloc::Global;
use tc_book::Records;
use tc_proc::ReopenFault;
use tc_store::{Tables, Version};
use tc_types::{Image, Refusal};
use tc_view::file_page;
use tc_wall::MOST_BYTES;

/// The records that these tables tell of. `Store` where no desk could have written them, and `Memory` where that is refused.
pub fn records_of(alloc: Global, image: &Image) -> Result<Records<Global>, Refusal>
    ensures book { IfOk result (λ records. records.book ≡ book_of (rows_in image.now)) }
    ensures sound { OnOk result (IsSound (rows_in image.now)) }
    ensures kind { IfErr result (λ refusal. (refusal ≡ Refusal.Memory) ⊎ ((refusal ≡ Refusal.Store) × (¬ IsSound (rows_in image.now)))) }
{
    match Records::reopen(alloc, image) {
        Ok(records) => Ok(records),
        Err(ReopenFault::Unsound) => Err(Refusal::Store),
        Err(ReopenFault::Memory) => Err(Refusal::Memory),
    }
}

/// The page of the book that these tables tell of. `Store` where no desk could have written them, and `Memory` where that is refused.
fn page_of(alloc: Global, image: &Image) -> Result<String, Refusal>
    ensures told { IfOk result (λ page. IsSound (rows_in image.now) × IsFilePage (book_of (rows_in image.now)) (string_bytes page)) }
    ensures ends { EndsPage MOST_BYTES result }
{
    let records = records_of(alloc, image)?;
    Ok(file_page(alloc, &records)?)
}

/// The page of the wall of these tables, which are of this version. They are only read. `Store` where they cannot be read, or no desk could have written them;
/// `Memory` where that is refused.
pub(crate) fn closed_wall<S: Alter + Drop>(
    alloc: Global,
    tables: &mut Tables<S>,
    version: Version,
) -> Result<String, Refusal>
    // whatever was left
    ensures judged { HasCleanDisk (state S.Store tables.new) → OnOk result (AreJudged S.Store version tables.old) }
    ensures page { ReadsWall S.Store (λ page. string_bytes page) result tables.old tables.new }
    ensures ends { EndsPage MOST_BYTES result }
{
    match tables.load(version) {
        Ok(image) => page_of(alloc, &image),
        Err(fault) => Err(refusal_of(fault)),
    }
}
