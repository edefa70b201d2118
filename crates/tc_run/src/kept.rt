//! The run of a script on a desk that is kept in a database.
ghost use Rattle.tc_types.specs.Counts.{counts_of, inner_of};
ghost use Rattle.tc_run.specs.Kept.{RunsKept, RunsOpened, StopsKept, StopsOpened};
ghost use Rattle.tc_check.specs.Scripts.{script_lines};
ghost use Rattle.tc_closed.specs.Scripts.{Ends};

use crate::files::open_files;
use crate::moments::latest_moment;
use crate::opened::{Opening, tell_moves};
use crate::run::run_room;
use sqlite::{Alter, Connection};
use sqlite_disk::Disk;
use sqlite_store::FileStore;
use std::alloc::Global;
use std::io::Write;
use tc_closed::{Paths, ScriptFault, Watch};
use tc_room::{OpenedRoom, Room};
use tc_types::{Counted, Move};

/// Writes the moves that an opening made, and runs the lines of a script in the room that it opened. Where the moves are not written, the room
/// stays as it was opened.
fn run_opened<S: Alter + Drop, P: Paths, T: Watch, W: Write>(
    alloc: Global,
    room: &mut Room<S>,
    moves: &[Move],
    text: &[u8],
    paths: &mut P,
    watch: &T,
    writer: &mut Counted<W>,
) -> Result<u8, ScriptFault>
    ensures { Ends (λ status. RunsOpened S.Store (T.echoes watch.now) room.old moves.now text.now status (P.given paths.old) (P.given paths.new) (W.contents (inner_of writer.old)) (W.contents (inner_of writer.new)) room.new)
        (λ fault. StopsOpened S.Store (T.echoes watch.now) room.old moves.now fault (script_lines text.now) (P.given paths.old) (P.given paths.new) (W.contents (inner_of writer.old)) (W.contents (inner_of writer.new)) room.new) (counts_of writer.old) (counts_of writer.new) result }
{
    tell_moves(alloc, moves, writer)?;
    run_room(alloc, room, text, paths, watch, writer)
}

/// Runs the lines of a script, that was read, on the desk that two files keep, opened at a moment: writes the moves that the
/// opening made, what the lines are answered, and at the end what `places` is answered. Gives the exit status, as
/// `run_script` does, and the connection, also with a fault. Where the desk could not be opened the fault is `Tables`, `Memory`, or, exactly where
/// there is no such desk, `Config`; nothing was written, and the tables are as they were. Where the run stopped in the room, the tables are those
/// that the lines before made, and no such fault comes any more.
pub fn run_kept<D: Disk + Drop, P: Paths, T: Watch, W: Write>(
    alloc: Global,
    store: Connection<FileStore<D>>,
    opening: &Opening,
    text: &[u8],
    paths: &mut P,
    watch: &T,
    writer: &mut Counted<W>,
) -> (Result<u8, ScriptFault>, Connection<FileStore<D>>)
    ensures { Ends (λ status. RunsKept (T.echoes watch.now) opening.now.config opening.now.moment store text.now status (P.given paths.old) (P.given paths.new) (W.contents (inner_of writer.old)) (W.contents (inner_of writer.new)) result.1)
        (λ fault. StopsKept (T.echoes watch.now) opening.now.config opening.now.moment store fault (script_lines text.now) (P.given paths.old) (P.given paths.new) (W.contents (inner_of writer.old)) (W.contents (inner_of writer.new)) result.1) (counts_of writer.old) (counts_of writer.new) result.0 }
{
    match open_files(alloc, store, opening) {
        Ok(opened) => {
            let OpenedRoom { mut room, moves } = opened;
            watch.opened(opening.moment, latest_moment(&room));
            let ended = run_opened(alloc, &mut room, &moves, text, paths, watch, writer);
            // read for the proof alone: the promise is kept, also where the run stopped
            let _opened = room.opened();
            (ended, room.into_connection())
        }
        Err((refusal, store)) => (Err(ScriptFault::from(refusal)), store),
    }
}
