//! A desk's two files in memory, for a user who may only read them.
ghost use Rattle.std.specs.Prelude.{IfOk, IsTrue};
ghost use Rattle.sqlite_disk.specs.Memory.{memory_is_usable};

use crate::because::Unusable;
use crate::copying::{CopyFault, Target, copy_files};
use crate::paths::read_most;
use crate::reporting::Kept;
use sqlite::{Connection, Error, ErrorCode, FileStore, Files, Options};
use sqlite_disk::{Disk, Memory};
use std::alloc::Global;
use std::fs;

/// The bytes of both files. A log that is not there has none.
#[derive(Drop)]
struct Bytes {
    database: Vec<u8>,
    log: Vec<u8>,
}

impl Target for Bytes {
    fn take_database(&mut self, rt: &HostRuntime, from: fs::File) -> Result<(), CopyFault> {
        self.database = read_most(rt.alloc(), from, usize::MAX)?;
        Ok(())
    }

    fn take_log(&mut self, rt: &HostRuntime, from: Option<fs::File>) -> Result<(), CopyFault> {
        self.log = match from {
            Some(from) => read_most(rt.alloc(), from, usize::MAX)?,
            None => Vec::new(rt.alloc()),
        };
        Ok(())
    }
}

/// A file in memory with these bytes.
fn memory_of(alloc: Global, bytes: &[u8]) -> Result<Memory, Error>
    ensures { IfOk result (λ memory. IsTrue (memory_is_usable memory)) }
{
    let mut memory = Memory::new(alloc);
    match memory.write_at(0, bytes) {
        Ok(()) => Ok(memory),
        Err(_) => Err(Error::SqliteFailure(ErrorCode::OutOfMemory)),
    }
}

/// The database that two files hold together, in memory.
fn open_bytes(alloc: Global, bytes: &Bytes) -> Result<Connection<FileStore<Memory>>, Error> {
    let files = Files {
        log: memory_of(alloc, &bytes.log)?,
        db: memory_of(alloc, &bytes.database)?,
    };
    match Connection::open_files(alloc, files, Options::new(0)) {
        Ok(store) => Ok(store),
        Err((error, _)) => Err(error),
    }
}

/// The database of a desk's two files, as they stood together at one moment. They stay as they are, and nothing is locked or made beside them.
pub(crate) fn open_in_memory(
    rt: &HostRuntime,
    kept: &Kept,
) -> Result<Connection<FileStore<Memory>>, Unusable> {
    let mut bytes = Bytes {
        database: Vec::new(rt.alloc()),
        log: Vec::new(rt.alloc()),
    };
    copy_files(rt, kept, &mut bytes)?;
    Ok(open_bytes(rt.alloc(), &bytes)?)
}
