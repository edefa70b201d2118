//! What a copy is made of before it stands under its name: two files, which take a desk's two.

use crate::because::Because;
use crate::copying::{CopyFault, Target, of_copy};
use std::fs::{self, OpenOptions};
use std::io::{self, Seek, SeekFrom};
use std::os::unix::fs::OpenOptionsExt;
use tc_types::Counted;

/// What a copy is made of before it stands under its name: a database, which this program holds open, and the log beside it.
#[derive(Drop)]
pub(crate) struct Parts {
    pub(crate) database: String,
    pub(crate) log: String,
    pub(crate) file: fs::File,
}

/// Takes away a file, if it is there.
pub(crate) fn forget(rt: &HostRuntime, path: &str) -> Result<(), CopyFault> {
    match fs::remove_file(rt, path) {
        Err(error) if error.kind() != io::ErrorKind::NotFound => Err(of_copy(error)),
        _ => Ok(()),
    }
}

/// Why bytes could not be read, or written.
fn why_not_moved(error: io::Error) -> Option<Because> {
    Because::of_system(error.kind()).or(Some(Because::Failed))
}

/// Copies a file to its end.
fn copy_bytes(from: fs::File, to: &fs::File) -> Result<(), CopyFault> {
    let mut reader = Counted::new(from);
    let mut writer = to;
    match io::copy(&mut reader, &mut writer) {
        Ok(_) => Ok(()),
        Err(error) if reader.counts().faults > 0 => Err(CopyFault::Desk(why_not_moved(error))),
        Err(error) => Err(CopyFault::Copy(why_not_moved(error))),
    }
}

impl Target for Parts {
    fn take_database(&mut self, _rt: &HostRuntime, from: fs::File) -> Result<(), CopyFault> {
        let mut to = &self.file;
        self.file.set_len(0).map_err(of_copy)?;
        to.seek(SeekFrom::Start(0)).map_err(of_copy)?;
        copy_bytes(from, to)
    }

    fn take_log(&mut self, rt: &HostRuntime, from: Option<fs::File>) -> Result<(), CopyFault> {
        forget(rt, self.log.as_str())?;
        let Some(from) = from else {
            return Ok(());
        };
        let to = OpenOptions::new()
            .write(true)
            .create_new(true)
            .mode(0o600)
            .open(rt, self.log.as_str())
            .map_err(of_copy)?;
        copy_bytes(from, &to)
    }
}
