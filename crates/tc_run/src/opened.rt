//! The opening of a desk that is kept in a database, which tells its moves.
ghost use Rattle.std.specs.Prelude.{◌≡◌, ◌≢◌, ℕ, List, Err, IfErr, IfOk, OnOk, ⊤};
ghost use Rattle.std.specs.Io.KnownBytes.{Appends};
ghost use Rattle.tc_types.specs.Counts.{counts_of, inner_of, no_counts};
ghost use Rattle.tc_types.specs.declared.history.moves.Move.{Move};
ghost use Rattle.tc_run.specs.Crash.{OpensFiles};
ghost use Rattle.tc_run.specs.Kept.{CutsOpening, StopsTold, opening_text};
ghost use Rattle.tc_closed.specs.Scripts.{Ends, written_counts};

use crate::files::open_files;
use sqlite::{Alter, Connection};
use sqlite_disk::Disk;
use sqlite_store::FileStore;
use std::alloc::Global;
use std::io::Write;
use tc_closed::{ScriptFault, put};
use tc_room::{OpenedRoom, Room, opening_reply};
use tc_types::{Counted, Moment, Move};
use tc_world::Config;

/// How a desk is opened that a database keeps.
#[derive(Clone, Copy)]
pub struct Opening {
    /// Its window, its channel and its links.
    pub config: Config,
    /// The moment of the opening.
    pub moment: Moment,
}

/// A desk that is not worked, and the connection to its database.
#[derive(Drop)]
pub struct Unopened<S: Alter + Drop> {
    pub fault: ScriptFault,
    pub store: Connection<S>,
}

/// Writes the moves that an opening made. It fails with `Output` and `Memory` alone.
pub(crate) fn tell_moves<W: Write>(
    alloc: Global,
    moves: &[Move],
    writer: &mut Counted<W>,
) -> Result<(), ScriptFault>
    ensures { Ends (λ _. Appends (W.contents (inner_of writer.old)) (W.contents (inner_of writer.new)) (opening_text moves.now))
        (λ fault. (part : List ℕ) × CutsOpening fault moves.now part × Appends (W.contents (inner_of writer.old)) (W.contents (inner_of writer.new)) part) (counts_of writer.old) (counts_of writer.new) result }
{
    let told = opening_reply(alloc, moves)?;
    put(writer, told.as_bytes())
}

/// Opens the desk that two files keep at a moment, and writes the moves that the opening made, as the run of a script does. Where it
/// could not be opened the fault is `Tables`, `Memory`, or, exactly where there is no such desk, `Config`; nothing was written, and the tables are
/// as they were. Where its moves could not be written it is `Output` or `Memory`, and they stand in the tables.
pub fn open_told<D: Disk + Drop, W: Write>(
    alloc: Global,
    store: Connection<FileStore<D>>,
    opening: &Opening,
    writer: &mut Counted<W>,
) -> Result<Room<FileStore<D>>, Unopened<FileStore<D>>>
    ensures told { IfOk result (λ room. (moves : List Move) × OpensFiles opening.now.config opening.now.moment store moves room
        × Appends (W.contents (inner_of writer.old)) (W.contents (inner_of writer.new)) (opening_text moves)) }
    ensures unwritten { counts_of writer.old ≡ no_counts → OnOk result (counts_of writer.new ≡ no_counts) }
    ensures stopped { IfErr result (λ left. StopsTold opening.now.config opening.now.moment store left.fault (W.contents (inner_of writer.old)) (W.contents (inner_of writer.new)) left.store) }
    ensures fault { IfErr result (λ left. (left.fault ≢ ScriptFault.Script) × (counts_of writer.old ≡ no_counts → counts_of writer.new ≡ written_counts {X = ⊤} (Err left.fault))) }
{
    match open_files(alloc, store, opening) {
        Ok(opened) => {
            let OpenedRoom { room, moves } = opened;
            match tell_moves(alloc, &moves, writer) {
                Ok(()) => Ok(room),
                Err(fault) => {
                    // read for the proof alone: the promise is kept
                    let _opened = room.opened();
                    Err(Unopened {
                        fault,
                        store: room.into_connection(),
                    })
                }
            }
        }
        Err((refusal, store)) => Err(Unopened {
            fault: ScriptFault::from(refusal),
            store,
        }),
    }
}
