//! The copying of a desk's two files on this machine while the desk may run.
ghost use Rattle.std.specs.Prelude.{⊤};

use crate::because::Because;
use crate::marking::{opened, read_marks};
use crate::reporting::Kept;
use std::alloc::AllocError;
use std::time::Duration;
use std::{fs, io, thread};
use tc_closed::{PathFault, ScriptFault};
use tc_copy::{DeskFiles, Marks, Reading};

/// A file by its name: that of a database, or what stands beside it.
#[derive(Clone, Copy, Debug, PartialEq, Eq)]
pub enum Beside {
    Database,
    Log,
    Journal,
}

impl Beside {
    /// What stands behind the name of the database.
    pub fn suffix(self) -> &'static str {
        match self {
            Beside::Database => "",
            Beside::Log => "-wal",
            Beside::Journal => "-journal",
        }
    }
}

/// Why a desk is not copied.
#[derive(Clone, Copy, Debug, PartialEq, Eq)]
pub enum CopyFault {
    /// Its file cannot be read, is not one of its own log, or holds no desk that opens; and why, where that was told.
    Desk(Option<Because>),
    /// The copy cannot be written, and why, where that was told.
    Copy(Option<Because>),
    /// There is a file already that has the name of the copy, or of what would stand beside it.
    Taken(Beside),
    /// The log of the desk was emptied in the midst of each try.
    Restless,
    /// There was no memory.
    Memory,
    /// What is said of the copy, which stands, could not be written.
    Output,
}

impl From<AllocError> for CopyFault {
    fn from(_error: AllocError) -> CopyFault {
        CopyFault::Memory
    }
}

impl From<PathFault> for CopyFault {
    fn from(fault: PathFault) -> CopyFault {
        match fault {
            PathFault::Memory => CopyFault::Memory,
            PathFault::Unreadable => CopyFault::Desk(None),
        }
    }
}

impl From<ScriptFault> for CopyFault {
    fn from(fault: ScriptFault) -> CopyFault {
        match fault {
            ScriptFault::Memory => CopyFault::Memory,
            ScriptFault::Output => CopyFault::Output,
            _ => CopyFault::Desk(None),
        }
    }
}

/// How many milliseconds lie between two tries to copy a desk.
const PAUSE_MILLISECONDS: u64 = 10;

/// What is told where a desk's file could not be used so.
pub(crate) fn of_desk(error: io::Error) -> CopyFault {
    CopyFault::Desk(Because::of_system(error.kind()))
}

/// What is told where a file of the copy could not be used so. Of its name nothing: that may be the name of a part, which nobody gave.
pub(crate) fn of_copy(error: io::Error) -> CopyFault {
    match Because::of_system(error.kind()) {
        Some(Because::Missing | Because::NoFolder | Because::Folder) => CopyFault::Copy(None),
        because => CopyFault::Copy(because),
    }
}

/// What a desk's two files are copied to.
pub(crate) trait Target {
    /// Takes the database file to its end, in place of one that it took.
    fn take_database(&mut self, rt: &HostRuntime, from: fs::File) -> Result<(), CopyFault>;

    /// Takes the log to its end, in place of one that it took, or that there is none.
    fn take_log(&mut self, rt: &HostRuntime, from: Option<fs::File>) -> Result<(), CopyFault>;
}

/// A desk's two files on this machine, and what they are copied to.
#[derive(Drop)]
struct HostDesk<'a, T: Target> {
    rt: &'a HostRuntime,
    kept: &'a Kept,
    target: &'a mut T,
}

impl<T: Target> DeskFiles for HostDesk<'_, T> {
    type Fault = CopyFault;

    // no contract can say what a file gives
    ghost asks = { λ _ _ _. ⊤ };

    ghost nothing = { λ _. tt };

    ghost joined = { λ _ _ _ _ _ _ _. tt };

    fn marks(&mut self) -> Result<Marks, CopyFault> {
        read_marks(self.rt, self.kept)
    }

    fn take_database(&mut self) -> Result<(), CopyFault> {
        let database = fs::open(self.rt, self.kept.database.as_str()).map_err(of_desk)?;
        self.target.take_database(self.rt, database)
    }

    fn take_log(&mut self) -> Result<(), CopyFault> {
        let log = opened(self.rt, self.kept.log.as_str())?;
        self.target.take_log(self.rt, log)
    }

    fn pause(&mut self) {
        thread::sleep(self.rt, Duration::from_millis(PAUSE_MILLISECONDS));
    }
}

/// Copies the database file and then its log, until both were read of one state (`tc_copy::copy_files`).
pub(crate) fn copy_files<T: Target>(
    rt: &HostRuntime,
    kept: &Kept,
    target: &mut T,
) -> Result<(), CopyFault> {
    let mut files = HostDesk { rt, kept, target };
    match tc_copy::copy_files(&mut files)? {
        Reading::Whole => Ok(()),
        Reading::Torn => Err(CopyFault::Restless),
        Reading::Unpaired(why) => Err(CopyFault::Desk(Some(Because::of_pair(why)))),
    }
}
