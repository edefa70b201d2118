//! What stands at a path where a desk is to be, and why it is no file of one.
ghost use Rattle.std.specs.Prelude.{◌≡◌, ◌↔◌, Err};
ghost use Rattle.std.specs.declared.io.ErrorKind.TheVariants as kind;
ghost use Rattle.tc_host.specs.Standing.{what_stands, why_no_file};

use crate::because::Because;
use std::io;
use tc_closed::ScriptFault;

/// What a look at a path found there.
#[derive(Clone, Copy)]
pub(crate) struct Found {
    pub(crate) is_folder: bool,
    pub(crate) is_file: bool,
    /// How many bytes it has.
    pub(crate) bytes: u64,
}

/// What stands at a path, by its kind and its length.
#[derive(Clone, Copy)]
pub(crate) enum Standing {
    Folder,
    /// A pipe, a socket or a device.
    Special,
    /// A file of no bytes, in which a desk may be made.
    Empty,
    /// A file that has bytes, which may be a desk's.
    Bytes,
}

/// Returns what stands where this was found.
pub(crate) fn what_stands(found: Found) -> Standing
    ensures { result ≡ what_stands found }
{
    match (found.is_folder, found.is_file, found.bytes) {
        (true, _, _) => Standing::Folder,
        (false, false, _) => Standing::Special,
        (false, true, 0) => Standing::Empty,
        (false, true, _) => Standing::Bytes,
    }
}

/// Returns why this is no file of a desk, if it is none.
pub(crate) fn why_no_file(standing: Standing) -> Option<Because>
    ensures { result ≡ why_no_file standing }
{
    match standing {
        Standing::Folder => Some(Because::Folder),
        Standing::Special => Some(Because::Special),
        Standing::Empty => Some(Because::Empty),
        Standing::Bytes => None,
    }
}

/// How a path is tried where a desk is to be opened, so that it stays as it was.
#[derive(Clone, Copy)]
pub(crate) enum Trial {
    /// A database is made there, and removed.
    Make,
    /// Nothing is done: a desk may be made in the empty file.
    Leave,
    /// The file is opened and judged.
    Judge,
    /// Nothing is done: the system does not report what stands there.
    Fail(ScriptFault),
}

/// Returns how a path is tried where a look found this, or failed so. A file is made and removed exactly if the system says that none is there.
pub(crate) fn trial_of(looked: Result<Found, io::ErrorKind>) -> Trial
    ensures { (result ≡ Trial.Make) ↔ (looked ≡ Err kind.NotFound) }
{
    match looked {
        Ok(found) if matches!(what_stands(found), Standing::Empty) => Trial::Leave,
        Ok(_) => Trial::Judge,
        Err(io::ErrorKind::NotFound) => Trial::Make,
        Err(io::ErrorKind::OutOfMemory) => Trial::Fail(ScriptFault::Memory),
        Err(_) => Trial::Fail(ScriptFault::Tables),
    }
}
