//! The files of the machine that a run is given: a script, and the database that keeps a desk.
ghost use Rattle.std.specs.Prelude.{IfOk};
ghost use Rattle.sqlite_wal.specs.Files.{image_at};
ghost use Rattle.sqlite.specs.State.{HasCleanDisk};
ghost use Rattle.sqlite.specs.Start.{FindsIn};
ghost use Rattle.sqlite.specs.Files.{file_state, IsOpened};

use crate::because::{Because, Unusable};
use sqlite::Connection;
use sqlite_disk::{Start, Wary};
use sqlite_std_file::FileFrom;
use sqlite_store::FileStore;
use std::rt::Files;
use std::{fs, io};
use tc_closed::{ScriptFault, read_script};
use tc_store::{StoreFault, Tables};
use tc_types::Counted;

/// The script at this path.
pub fn open_script<R: Files>(rt: &R, path: &str) -> Result<R::File, ScriptFault> {
    fs::open(rt, path).map_err(|error| match error.kind() {
        io::ErrorKind::OutOfMemory => ScriptFault::Memory,
        _ => ScriptFault::Script,
    })
}

/// The text of the script at this path, or of the standard input where it is `-`, read whole.
pub fn text_at<R: Files + Input + AllocGlobal>(rt: &R, path: &str) -> Result<Vec<u8>, ScriptFault> {
    if path == "-" {
        return read_script(rt.alloc(), &mut Counted::new(rt.reader()));
    }
    read_script(rt.alloc(), &mut Counted::new(open_script(rt, path)?))
}

/// The database in a file, which is made where there is none. It is what the two files held as they were opened, whatever that is: `start` stands for
/// it.
pub fn open_database<S: Start>(
    rt: &HostRuntime,
    file: &str,
    start: S,
) -> Result<Connection<FileStore<FileFrom<S>>>, Unusable>
    ensures opened { IfOk result (λ c. HasCleanDisk (file_state c) → IsOpened c) }
    ensures found { IfOk result (λ c. HasCleanDisk (file_state c) → FindsIn (image_at S.Start) (file_state c)) }
{
    match Connection::open_from(rt, file, false, start) {
        Ok(store) => Ok(store),
        Err((error, _)) => Err(Unusable::from(error)),
    }
}

/// What became of the tables of a desk, where the database failed so.
pub fn of_tables(error: sqlite::Error) -> Unusable {
    Unusable {
        fault: ScriptFault::Tables,
        because: Because::of_database(&error),
    }
}

/// Why the tables of a desk could not be made.
fn unmade(fault: StoreFault) -> Unusable {
    match fault {
        StoreFault::Before(error) | StoreFault::Commit(error) => of_tables(error),
        _ => Unusable::from(ScriptFault::Tables),
    }
}

/// The database of a desk in a file. One without a table gets those of an empty desk, which are copied into the file itself, so that a copy of the file alone
/// is a desk's too; that a desk was made is said on the standard error.
pub fn open_desk(
    rt: &HostRuntime,
    file: &str,
) -> Result<Connection<FileStore<FileFrom<Wary>>>, Unusable> {
    let store = open_database(rt, file, Wary)?;
    let tables = match Tables::create(rt.alloc(), store) {
        Ok(tables) => tables,
        Err((StoreFault::NotEmpty, store)) => return Ok(store),
        Err((fault, _)) => return Err(unmade(fault)),
    };
    let made = tables.into_connection();
    made.close().map_err(of_tables)?;
    let _ = eprintln!(rt; "tcdesk: {file} is a new desk");
    open_database(rt, file, Wary)
}
