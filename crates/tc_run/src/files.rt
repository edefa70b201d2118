//! The opening of a desk that two files keep.
ghost use Rattle.std.specs.Prelude.{◌≡◌, ◌⊎◌, ◌↔◌, IfErr, IfOk};
ghost use Rattle.tc_types.specs.declared.refusals.Refusal.TheVariants.{BadDirective, Memory, Store};
ghost use Rattle.tc_world.specs.Config.{IsConfig};
ghost use Rattle.tc_run.specs.Crash.{OpensFiles};
ghost use Rattle.tc_run.specs.Kept.{StaysInFiles};

use crate::opened::Opening;
use sqlite::Connection;
use sqlite_disk::Disk;
use sqlite_store::FileStore;
use std::alloc::Global;
use tc_room::{OpenedRoom, Room};
use tc_types::Refusal;

/// Opens a room over a desk's files, as `Room::open` does. If the files hold what a crash left of another connection, its desk is the one that an opening makes of
/// what stood there, and the replies stay.
pub(crate) fn open_files<D: Disk + Drop>(
    alloc: Global,
    store: Connection<FileStore<D>>,
    opening: &Opening,
) -> Result<OpenedRoom<FileStore<D>>, (Refusal, Connection<FileStore<D>>)>
    ensures opened { IfOk result (λ opened. OpensFiles opening.now.config opening.now.moment store opened.moves.items opened.room) }
    ensures refused { IfErr result (λ e. (e.0 ≡ BadDirective) ↔ (¬ IsConfig opening.now.config)) }
    ensures kind { IfErr result (λ e. (e.0 ≡ BadDirective) ⊎ (e.0 ≡ Memory) ⊎ (e.0 ≡ Store)) }
    ensures stays { IfErr result (λ e. StaysInFiles opening.now.config opening.now.moment store e.1) }
{
    Room::open(alloc, store, opening.config, opening.moment)
}
