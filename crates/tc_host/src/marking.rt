//! The marks of a desk's two files, as the system has them now.

use crate::copying::{CopyFault, of_desk};
use crate::locks::Locks;
use crate::paths::read_most;
use crate::reporting::Kept;
use std::os::unix::fs::MetadataExt;
use std::{fs, io};
use tc_copy::{FileStamp, LogMark, Marks};

/// How many bytes the head of a log has.
const HEAD: usize = 32;

/// The stamp of an open file.
pub(crate) fn stamp_of(found: &fs::Metadata) -> FileStamp {
    FileStamp {
        device: found.dev(),
        inode: found.ino(),
        names: found.nlink(),
        size: found.len(),
        seconds: found.mtime(),
        nanoseconds: found.mtime_nsec(),
    }
}

/// The file at this path, open for reading, where there is one.
pub(crate) fn opened(rt: &HostRuntime, path: &str) -> Result<Option<fs::File>, CopyFault> {
    match fs::open(rt, path) {
        Ok(file) => Ok(Some(file)),
        Err(error) if error.kind() == io::ErrorKind::NotFound => Ok(None),
        Err(error) => Err(of_desk(error)),
    }
}

/// The first bytes of a text, with zeros behind its end.
fn head_of(text: &[u8]) -> [u8; HEAD] {
    let mut head = [0; HEAD];
    for (to, from) in head.iter_mut().zip(text.iter()) {
        *to = *from;
    }
    head
}

/// The mark of the log at this path, where there is one. The first byte of its head is read first.
fn log_mark(rt: &HostRuntime, path: &str, locks: &Locks) -> Result<Option<LogMark>, CopyFault> {
    let Some(log) = opened(rt, path)? else {
        return Ok(None);
    };
    let found = log.metadata().map_err(of_desk)?;
    let text = read_most(rt.alloc(), log, HEAD)?;
    let stamp = stamp_of(&found);
    Ok(Some(LogMark {
        stamp,
        is_held: locks.hold(rt.alloc(), &stamp)?,
        head: head_of(&text),
    }))
}

/// The marks of a desk's files.
pub(crate) fn read_marks(rt: &HostRuntime, kept: &Kept) -> Result<Marks, CopyFault> {
    let locks = Locks::read(rt)?;
    let found = fs::metadata(rt, kept.database.as_str()).map_err(of_desk)?;
    let file = stamp_of(&found);
    Ok(Marks {
        file,
        is_held: locks.hold(rt.alloc(), &file)?,
        log: log_mark(rt, kept.log.as_str(), &locks)?,
    })
}
