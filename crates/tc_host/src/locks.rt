//! Which files a program holds as one of a desk's two, by the system's list of all locks. Nothing is locked to tell it.

use crate::copying::CopyFault;
use crate::paths::read_most;
use std::alloc::{AllocError, Global};
use std::fs;
use tc_copy::FileStamp;

/// Where the system lists the locks that stand (proc_locks(5)).
const LIST: &str = "/proc/locks";

/// The first byte that SQLite locks of a file. A program that has a desk open locks it, and the bytes after it, of the database file and of the log.
const FIRST_BYTE: &str = "1073741824";

/// The locks that stand, as the system lists them; none where it lists none to this program.
#[derive(Drop)]
pub(crate) struct Locks {
    list: Option<Vec<u8>>,
}

impl Locks {
    /// The locks that stand now.
    pub(crate) fn read(rt: &HostRuntime) -> Result<Locks, CopyFault> {
        let list = match fs::open(rt, LIST) {
            Ok(file) => Some(read_most(rt.alloc(), file, usize::MAX)?),
            Err(_) => None,
        };
        Ok(Locks { list })
    }

    /// Whether a program holds this file, or may, where no lock is listed.
    pub(crate) fn hold(&self, alloc: Global, file: &FileStamp) -> Result<bool, AllocError> {
        let Some(list) = &self.list else {
            return Ok(true);
        };
        let place = listed_place(alloc, file)?;
        match str::from_utf8(list.as_slice()) {
            Ok(list) => Ok(list.lines().any(|line| tells_of(line, place.as_str()))),
            Err(_) => Ok(true),
        }
    }
}

/// How the list tells where a lock of a file begins that a program has open: the file's device, in two numbers of base 16, its own number, and that byte.
fn listed_place(alloc: Global, file: &FileStamp) -> Result<String, AllocError> {
    let major = ((file.device >> 32) & 0xffff_f000) | ((file.device >> 8) & 0xfff);
    let minor = ((file.device >> 12) & 0xffff_ff00) | (file.device & 0xff);
    let inode = file.inode;
    Ok(format!(in alloc; " {major:02x}:{minor:02x}:{inode} {FIRST_BYTE} ")?)
}

/// Whether a line of the list tells of a lock at this place that is to write.
fn tells_of(line: &str, place: &str) -> bool {
    line.contains(" WRITE ") && line.contains(place)
}
