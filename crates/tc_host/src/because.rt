//! Why something cannot be used, as far as the system and the database tell it, and the words for it.

use crate::copying::CopyFault;
use sqlite::{Error, ErrorCode};
use std::alloc::AllocError;
use std::io;
use tc_closed::ScriptFault;
use tc_copy::Unpaired;

/// Why something cannot be used.
#[derive(Clone, Copy, Debug, PartialEq, Eq)]
pub enum Because {
    /// There is no file of this name.
    Missing,
    /// There is no folder in which it could be.
    NoFolder,
    /// It is a folder.
    Folder,
    /// It is neither a file nor a folder.
    Special,
    /// The system lets this user not read it, or not write it.
    Denied,
    /// It is no name of a file.
    NoName,
    /// It has no bytes.
    Empty,
    /// A script of more bytes than one may have.
    TooLong,
    /// Another program has it open.
    Busy,
    /// It, or its log, has a second name.
    Names,
    /// A program may have it open whose log does not stand beside it.
    Unlogged,
    /// A program has the log beside it open, and another database file.
    Unopened,
    /// SQLite left a rollback journal beside it.
    Journal,
    /// It is no database.
    NoDatabase,
    /// Its tables are not a desk's.
    Foreign,
    /// Its tables are a desk's that a later program made.
    Later,
    /// Its tables tell what no desk could have written.
    Damaged,
    /// The disk is full.
    Full,
    /// The disk failed.
    Failed,
}

impl Because {
    /// What is said of it.
    pub fn words(self) -> &'static str {
        match self {
            Because::Missing => "there is no such file",
            Because::NoFolder => "there is no such folder",
            Because::Folder => "it is a folder",
            Because::Special => "it is a pipe, a socket or a device",
            Because::Denied => "there is no permission for it",
            Because::NoName => "it is no name of a file",
            Because::Empty => "it is empty",
            Because::TooLong => "it has more than 1048576 bytes",
            Because::Busy => "another program has it open",
            Because::Names => "it has two names, or its log has",
            Because::Unlogged => "another program may have it open, and its log is not beside it",
            Because::Unopened => "the log beside it is of another file that a program has open",
            Because::Journal => "SQLite left a journal beside it, which sqlite3 has to play back",
            Because::NoDatabase => "it is no database, or a damaged one",
            Because::Foreign => "its tables are not a desk's",
            Because::Later => "its tables are of a newer schema, which a later program made",
            Because::Damaged => "it tells what no desk could have written",
            Because::Full => "the disk is full",
            Because::Failed => "the disk failed",
        }
    }

    /// What the system says by this kind of an error.
    pub fn of_system(kind: io::ErrorKind) -> Option<Because> {
        match kind {
            io::ErrorKind::NotFound => Some(Because::Missing),
            io::ErrorKind::NotADirectory => Some(Because::NoFolder),
            io::ErrorKind::IsADirectory => Some(Because::Folder),
            io::ErrorKind::PermissionDenied | io::ErrorKind::ReadOnlyFilesystem => {
                Some(Because::Denied)
            }
            io::ErrorKind::StorageFull | io::ErrorKind::QuotaExceeded => Some(Because::Full),
            _ => None,
        }
    }

    /// What it says that two files are not those of one desk.
    pub fn of_pair(why: Unpaired) -> Because {
        match why {
            Unpaired::Named => Because::Names,
            Unpaired::Unlogged => Because::Unlogged,
            Unpaired::Unopened => Because::Unopened,
        }
    }

    /// What the database says by this error, where rows were read: a value that is none of its column's is one that no desk writes.
    pub fn of_rows(error: &Error) -> Option<Because> {
        match error {
            Error::InvalidColumnType(..)
            | Error::IntegralValueOutOfRange(_)
            | Error::Utf8Error(_) => Some(Because::Damaged),
            _ => Because::of_database(error),
        }
    }

    /// What the database says by this error.
    pub fn of_database(error: &Error) -> Option<Because> {
        match error {
            Error::SqliteFailure(ErrorCode::DatabaseBusy) => Some(Because::Busy),
            Error::SqliteFailure(ErrorCode::NotADatabase | ErrorCode::DatabaseCorrupt) => {
                Some(Because::NoDatabase)
            }
            Error::SqliteFailure(ErrorCode::DiskFull) => Some(Because::Full),
            Error::SqliteFailure(ErrorCode::SystemIoFailure) => Some(Because::Failed),
            _ => None,
        }
    }
}

/// A fault, and why it came, where that was told as it came.
#[derive(Clone, Copy, Debug, PartialEq, Eq)]
pub struct Unusable {
    pub fault: ScriptFault,
    pub because: Option<Because>,
}

impl Unusable {
    /// Tables that cannot be used, for this reason.
    pub fn of_tables(because: Because) -> Unusable {
        Unusable {
            fault: ScriptFault::Tables,
            because: Some(because),
        }
    }
}

impl From<ScriptFault> for Unusable {
    fn from(fault: ScriptFault) -> Unusable {
        Unusable {
            fault,
            because: None,
        }
    }
}

impl From<Unusable> for ScriptFault {
    fn from(why: Unusable) -> ScriptFault {
        why.fault
    }
}

impl From<CopyFault> for Unusable {
    fn from(fault: CopyFault) -> Unusable {
        match fault {
            CopyFault::Memory => Unusable::from(ScriptFault::Memory),
            CopyFault::Desk(because) => Unusable {
                fault: ScriptFault::Tables,
                because,
            },
            CopyFault::Restless => Unusable::of_tables(Because::Busy),
            _ => Unusable::from(ScriptFault::Tables),
        }
    }
}

impl From<AllocError> for Unusable {
    fn from(_error: AllocError) -> Unusable {
        Unusable::from(ScriptFault::Memory)
    }
}

impl From<Error> for Unusable {
    fn from(error: Error) -> Unusable {
        Unusable {
            because: Because::of_database(&error),
            fault: ScriptFault::from(error),
        }
    }
}
