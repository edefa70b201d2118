//! The wall of a desk that is kept in a file, and that nobody has open.
ghost use Rattle.std.specs.Prelude.{OnErr, OnOk};
ghost use Rattle.std.specs.Io.KnownBytes.{Appends};
ghost use Rattle.sqlite.specs.Held.{state};
ghost use Rattle.sqlite.specs.State.{HasCleanDisk};
ghost use Rattle.tc_types.specs.Counts.{counts_of, inner_of};
ghost use Rattle.tc_closed.specs.Walls.{CutsWall, TellsWall};
ghost use Rattle.tc_closed.specs.Closed.{AreJudged};
ghost use Rattle.tc_closed.specs.Reports.{PrintsTables};

use crate::scripts::ScriptFault;
use crate::wall_pages::closed_wall;
use crate::writing::put;
use sqlite::Alter;
use std::alloc::Global;
use std::io::Write;
use tc_store::{Tables, Version};
use tc_types::Counted;

/// Writes the page of the wall of these tables, which are of this version and are only read. Fails with `Tables` where they cannot be read or no desk could have
/// written them, `Memory` where that is refused, and `Output` where a write fails; then nothing was written, or a front of the page.
pub fn write_wall<S: Alter + Drop, W: Write>(
    alloc: Global,
    tables: &mut Tables<S>,
    version: Version,
    writer: &mut Counted<W>,
) -> Result<(), ScriptFault>
    ensures told { HasCleanDisk (state S.Store tables.new) → OnOk result (TellsWall S.Store tables.old (W.contents (inner_of writer.old)) (W.contents (inner_of writer.new))) }
    // it is told only of tables of this version whose rows all read as rows that a desk writes
    ensures judged { HasCleanDisk (state S.Store tables.new) → OnOk result (AreJudged S.Store version tables.old) }
    ensures cut { HasCleanDisk (state S.Store tables.new) → OnErr result (CutsWall S.Store tables.old (W.contents (inner_of writer.old)) (W.contents (inner_of writer.new))) }
    ensures prints { PrintsTables S.Store tables.old tables.new (counts_of writer.old) (counts_of writer.new) result }
{
    let page = closed_wall(alloc, tables, version)?;
    put(writer, page.as_bytes())
}
