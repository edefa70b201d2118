//! The shift report of a desk that nobody has open, written from its tables.
ghost use Rattle.std.specs.Prelude.{ℕ, List, [], OnErr, OnOk};
ghost use Rattle.std.specs.Io.KnownBytes.{Appends};
ghost use Rattle.sqlite.specs.Held.{state};
ghost use Rattle.sqlite.specs.State.{HasCleanDisk};
ghost use Rattle.tc_types.specs.Counts.{counts_of, inner_of};
ghost use Rattle.tc_types.specs.History.{shift_rows};
ghost use Rattle.tc_report.specs.ShiftReport.{AreAdded};
ghost use Rattle.tc_store.specs.declared.versions.Version.{Version as SomeVersion};
ghost use Rattle.tc_store.specs.Ledgers.{Ledger};
ghost use Rattle.tc_store.specs.Schema.{HoldsAs};
ghost use Rattle.tc_closed.specs.Closed.{AreJudged, IsClosedReport};
ghost use Rattle.tc_closed.specs.Reports.{CutsReport, CutsRows, PrintsTables};

use crate::scripts::ScriptFault;
use crate::shift_pages::{closed_head, closed_page};
use crate::writing::put;
use sqlite::Alter;
use std::alloc::Global;
use std::io::Write;
use tc_report::END;
use tc_store::{Tables, Version};
use tc_types::{Counted, Moment};

/// Writes the lines of the moves of a shift, a page of them after the other.
fn write_pages<S: Alter + Drop, W: Write>(
    alloc: Global,
    tables: &mut Tables<S>,
    from: Moment,
    to: Moment,
    writer: &mut Counted<W>,
) -> Result<(), ScriptFault>
    ensures told { HasCleanDisk (state S.Store tables.new) → OnOk result ((of : SomeVersion) (ledger : Ledger) → HoldsAs of (state S.Store tables.old).now ledger
        → (text : List ℕ) × AreAdded (shift_rows from to ledger.image.moves) [] text × Appends (W.contents (inner_of writer.old)) (W.contents (inner_of writer.new)) text) }
    ensures cut { HasCleanDisk (state S.Store tables.new) → OnErr result ((of : SomeVersion) (ledger : Ledger) → HoldsAs of (state S.Store tables.old).now ledger
        → (part : List ℕ) × CutsRows ledger.image from to part × Appends (W.contents (inner_of writer.old)) (W.contents (inner_of writer.new)) part) }
    ensures prints { PrintsTables S.Store tables.old tables.new (counts_of writer.old) (counts_of writer.new) result }
{
    let mut after = None;
    // each page ends on a greater number than the one before, so there are fewer pages than numbers
    'pages: for _ in 0..u32::MAX {
        let page = closed_page(alloc, tables, from, to, after)?;
        put(writer, page.text.as_bytes())?;
        if page.next.is_none() {
            return Ok(());
        }
        after = page.next;
    }
    Err(ScriptFault::Tables)
}

/// Writes the shift report of these tables, which are of this version: the moves of `from` and later, and before `to`, in order of number, and where the requests stand.
/// No more than a page of the moves is held at a time, and the tables are only read. Fails with `Tables` where they cannot be read, `Memory`
/// where that is refused, and `Output` where a write fails. The tables stay then, too, as long as the database is open, and what was written is nothing, or
/// a front of a report without its last line.
pub fn closed_report<S: Alter + Drop, W: Write>(
    alloc: Global,
    tables: &mut Tables<S>,
    version: Version,
    from: Moment,
    to: Moment,
    writer: &mut Counted<W>,
) -> Result<(), ScriptFault>
    ensures told { HasCleanDisk (state S.Store tables.new) → OnOk result ((of : SomeVersion) (ledger : Ledger) → HoldsAs of (state S.Store tables.old).now ledger
        → (text : List ℕ) × IsClosedReport ledger.image from to text × Appends (W.contents (inner_of writer.old)) (W.contents (inner_of writer.new)) text) }
    // it is told only of tables whose rows all read as rows that a desk writes
    ensures judged { HasCleanDisk (state S.Store tables.new) → OnOk result (AreJudged S.Store version tables.old) }
    // what one that fails has written does not look whole
    ensures cut { HasCleanDisk (state S.Store tables.new) → OnErr result ((of : SomeVersion) (ledger : Ledger) → HoldsAs of (state S.Store tables.old).now ledger
        → (part : List ℕ) × CutsReport ledger.image from to part × Appends (W.contents (inner_of writer.old)) (W.contents (inner_of writer.new)) part) }
    ensures prints { PrintsTables S.Store tables.old tables.new (counts_of writer.old) (counts_of writer.new) result }
{
    let head = closed_head(alloc, tables, version, from, to)?;
    put(writer, head.as_bytes())?;
    write_pages(alloc, tables, from, to, writer)?;
    put(writer, END.as_bytes())
}
