//! The files of the machine, as a source of the texts that a script loads, and of those that are checked.
ghost use Rattle.std.specs.Prelude.{None};

use std::alloc::{AllocError, Global};
use std::fs;
use std::io::Read;
use std::rt::Files;
use tc_check::Texts;
use tc_closed::{MOST_FILE_BYTES, PathFault, Paths};

/// The files of the machine, by their paths. Its content is not told.
#[derive(Drop)]
pub struct HostPaths<'a, R: Files> {
    rt: &'a R,
    unread: String,
}

impl<'a, R: Files> HostPaths<'a, R> {
    /// These files, of which none was read.
    pub fn new(alloc: Global, rt: &'a R) -> Self {
        HostPaths {
            rt,
            unread: String::new(alloc),
        }
    }

    /// The path that gave no text.
    pub fn unread(&self) -> &str {
        self.unread.as_str()
    }
}

/// Reads no more than so many bytes of a reader.
pub fn read_most<R: Read + Drop>(
    alloc: Global,
    reader: R,
    limit: usize,
) -> Result<Vec<u8>, PathFault> {
    let mut text = Vec::new(alloc);
    reader.take(limit as u64).read_to_end(&mut text)?;
    Ok(text)
}

/// Reads no more than so many bytes of the file at a path.
fn read_file<R: Files>(
    alloc: Global,
    rt: &R,
    path: &str,
    limit: usize,
) -> Result<Vec<u8>, PathFault> {
    read_most(alloc, fs::open(rt, path)?, limit)
}

/// The same files, for a script that is checked. Of each no more is read than shows that it is too long. Its content is not told.
#[derive(Drop)]
pub struct HostTexts<'a, R: Files> {
    rt: &'a R,
}

impl<'a, R: Files> HostTexts<'a, R> {
    /// These files.
    pub fn new(rt: &'a R) -> Self {
        HostTexts { rt }
    }
}

impl<R: Files> Texts for HostTexts<'_, R> {
    ghost seen = { λ _. None };

    fn text(&mut self, alloc: Global, path: &str) -> Result<Option<Vec<u8>>, AllocError> {
        match read_file(alloc, self.rt, path, MOST_FILE_BYTES) {
            Ok(text) => Ok(Some(text)),
            Err(PathFault::Unreadable) => Ok(None),
            Err(PathFault::Memory) => Err(AllocError),
        }
    }
}

impl<R: Files> Paths for HostPaths<'_, R> {
    ghost given = { λ _. None };

    fn load(&mut self, alloc: Global, path: &str, limit: usize) -> Result<Vec<u8>, PathFault> {
        let read = read_file(alloc, self.rt, path, limit);
        if let Err(PathFault::Unreadable) = read {
            self.unread = String::from_str(alloc, path)?;
        }
        read
    }
}

/// The text of the file at a path, or of the standard input where it is `-`, of which no more is read than shows that it is too long.
pub fn text_of<R: Files + Input + AllocGlobal>(rt: &R, file: &str) -> Result<Vec<u8>, PathFault> {
    if file == "-" {
        return read_most(rt.alloc(), rt.reader(), MOST_FILE_BYTES);
    }
    HostPaths::new(rt.alloc(), rt).load(rt.alloc(), file, MOST_FILE_BYTES)
}
