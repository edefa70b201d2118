//! The shift report of tables alone, in pieces. No desk is opened over them. All rows of all tables are judged before the first piece, each only
//! by whether it reads as a row that a desk writes.
ghost use Rattle.std.specs.Prelude.{◌≡◌, ◌⊎◌, ◌<◌, ◌≤◌, ◌^◌, ℕ, List, IfErr, IfOk, OnOk, length, sum};
ghost use Rattle.std.specs.String.{string_bytes};
ghost use Rattle.sqlite.specs.Held.{state};
ghost use Rattle.sqlite.specs.State.{HasCleanDisk};
ghost use Rattle.tc_types.specs.History.{shift_rows};
ghost use Rattle.tc_report.specs.ShiftReport.{IsReportHead};
ghost use Rattle.tc_report.specs.Texts.{AreLines, ended};
ghost use Rattle.tc_closed.specs.Closed.{amounts, closed_word, AreJudged, IsClosedHead, IsClosedPage, ReadsClosed, told_as};

use sqlite::{Alter, Error, ErrorCode};
use std::alloc::Global;
use tc_report::{Premise, add_rows, head_text, total};
use tc_store::{ReadFault, Tables, Version};
use tc_types::{Moment, PLACES, Refusal};

/// The lines of some of the moves of a shift.
#[derive(Drop)]
pub(crate) struct ClosedPage {
    /// The lines, each ended by LF.
    pub text: String,
    /// The number behind which the next page begins; `None` where this page is the last.
    pub next: Option<u32>,
}

/// Why what was to be read was not: memory, or the store.
pub(crate) fn refusal_of(fault: ReadFault) -> Refusal
    ensures told { result ≡ told_as fault }
    ensures kind { (result ≡ Refusal.Memory) ⊎ (result ≡ Refusal.Store) }
{
    match fault {
        ReadFault::Sqlite(Error::SqliteFailure(ErrorCode::OutOfMemory)) => Refusal::Memory,
        _ => Refusal::Store,
    }
}

/// How many moves of a shift the tables have, read in pages.
fn count_moves<S: Alter + Drop>(
    tables: &mut Tables<S>,
    from: Moment,
    to: Moment,
) -> Result<usize, ReadFault>
    ensures { ReadsClosed S.Store (λ image many. many ≡ length (shift_rows from to image.moves)) result tables.old tables.new }
{
    let mut many: usize = 0;
    let mut after = None;
    // each page ends on a greater number than the one before, so there are fewer pages than numbers
    'pages: for _ in 0..u32::MAX {
        let page = tables.shift_page(from, to, after)?;
        many = match many.checked_add(page.moves.len()) {
            Some(sum) => sum,
            None => return Err(ReadFault::Damaged),
        };
        if page.next.is_none() {
            return Ok(many);
        }
        after = page.next;
    }
    Err(ReadFault::Damaged)
}

/// What a head tells of the tables: how many requests stand at each place, and how many moves the shift has.
#[derive(Clone, Copy)]
struct ShiftCounts {
    places: [u32; PLACES],
    many: usize,
}

/// Judges all rows of all tables, and then counts.
fn judge_and_count<S: Alter + Drop>(
    tables: &mut Tables<S>,
    version: Version,
    from: Moment,
    to: Moment,
) -> Result<ShiftCounts, ReadFault>
    ensures judged { HasCleanDisk (state S.Store tables.new) → OnOk result (AreJudged S.Store version tables.old) }
    ensures counted { ReadsClosed S.Store (λ image found. (found.places ≡ amounts image) × (found.many ≡ length (shift_rows from to image.moves))) result tables.old tables.new }
{
    tables.judge(version)?;
    let places = tables.counts()?;
    let many = count_moves(tables, from, to)?;
    Ok(ShiftCounts { places, many })
}

/// The lines before those of the moves, of what was counted. `Store` where the requests are more than there are numbers, else `Memory`.
fn head_of(
    alloc: Global,
    places: &[u32; PLACES],
    many: usize,
    from: Moment,
    to: Moment,
) -> Result<String, Refusal>
    ensures head { IfOk result (λ text. (lines : List (List ℕ)) × IsReportHead closed_word places.now many from to lines × AreLines lines × (string_bytes text ≡ ended lines)) }
    ensures told { IfErr result (λ refusal. ((2 ^ 32 ≤ sum places.now) × (refusal ≡ Refusal.Store)) ⊎ ((sum places.now < 2 ^ 32) × (refusal ≡ Refusal.Memory))) }
{
    let entered = total(places).ok_or(Refusal::Store)?;
    Ok(head_text(alloc, Premise::Closed, entered, places, many, from, to)?)
}

/// The report's lines before those of the moves. All rows of all tables are judged first. `Store` where one does not read as a row that a
/// desk writes, or the tables cannot be read, or tell of more requests than there are numbers; `Memory` where that is refused.
pub(crate) fn closed_head<S: Alter + Drop>(
    alloc: Global,
    tables: &mut Tables<S>,
    version: Version,
    from: Moment,
    to: Moment,
) -> Result<String, Refusal>
    ensures head { ReadsClosed S.Store (λ image text. IsClosedHead image from to (string_bytes text)) result tables.old tables.new }
    // whatever was left
    ensures judged { HasCleanDisk (state S.Store tables.new) → OnOk result (AreJudged S.Store version tables.old) }
    ensures kind { IfErr result (λ refusal. (refusal ≡ Refusal.Memory) ⊎ (refusal ≡ Refusal.Store)) }
{
    match judge_and_count(tables, version, from, to) {
        Ok(found) => head_of(alloc, &found.places, found.many, from, to),
        Err(fault) => Err(refusal_of(fault)),
    }
}

/// The lines of some of the moves, those behind a number, or the first where there is none. `Store` where the tables cannot be read, `Memory`
/// where that is refused.
pub(crate) fn closed_page<S: Alter + Drop>(
    alloc: Global,
    tables: &mut Tables<S>,
    from: Moment,
    to: Moment,
    after: Option<u32>,
) -> Result<ClosedPage, Refusal>
    ensures page { ReadsClosed S.Store (λ image page. IsClosedPage image from to after page.next (string_bytes page.text)) result tables.old tables.new }
    ensures kind { IfErr result (λ refusal. (refusal ≡ Refusal.Memory) ⊎ (refusal ≡ Refusal.Store)) }
{
    let page = match tables.shift_page(from, to, after) {
        Ok(page) => page,
        Err(fault) => return Err(refusal_of(fault)),
    };
    let mut text = String::new(alloc);
    add_rows(alloc, &mut text, &page.moves)?;
    Ok(ClosedPage {
        text,
        next: page.next,
    })
}
