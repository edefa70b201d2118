//! Where the texts come from that a script loads.
ghost use Rattle.std.specs.Prelude.{◌≡◌, ◌≢◌, ◌∷◌, [], IfErr, IfOk, List, Option};
ghost use Rattle.std.specs.IoError.{error_kind};
ghost use Rattle.std.specs.declared.io.ErrorKind.TheVariants.{OutOfMemory};
ghost use Rattle.tc_closed.specs.Files.{FileAnswer, Gives, file_at, none_at};
ghost use Rattle.tc_closed.specs.declared.paths.PathFault.TheVariants.{Memory, Unreadable};

use std::alloc::{AllocError, Global};
use std::io;

/// How many bytes of a file are read: one more than a stack or a procedure may have, so that a longer one is refused as too long.
pub const MOST_FILE_BYTES: usize = 65_537;

/// Why there is no text at a path.
#[derive(Clone, Copy, Debug, PartialEq, Eq)]
pub enum PathFault {
    /// It names no file that can be read.
    Unreadable,
    /// There was no memory for it.
    Memory,
}

/// Want of memory as such, and any other error as a path that gives no text.
impl From<io::Error> for PathFault {
    ghost from_gives = { λ error fault. (error_kind error ≡ OutOfMemory → fault ≡ Memory) × (error_kind error ≢ OutOfMemory → fault ≡ Unreadable) };

    fn from(error: io::Error) -> PathFault {
        if error.kind() == io::ErrorKind::OutOfMemory {
            PathFault::Memory
        } else {
            PathFault::Unreadable
        }
    }
}

impl From<AllocError> for PathFault {
    ghost from_gives = { λ _ fault. fault ≡ Memory };

    fn from(_error: AllocError) -> PathFault {
        PathFault::Memory
    }
}

/// A source of files. Its content is the list of the answers that it gave.
pub trait Paths {
    /// The answers that it gave, each with its path: a text, or why there was none; in order, where a contract can name them.
    ghost given: { Self → Option (List FileAnswer) };

    /// The text at a path, of which no more than `limit` bytes are wanted.
    fn load(&mut self, alloc: Global, path: &str, limit: usize) -> Result<Vec<u8>, PathFault>
        ensures gave { IfOk result (λ text. Gives (given self.old) (given self.new) (file_at path.now text.items ∷ [])) }
        ensures none { IfErr result (λ why. Gives (given self.old) (given self.new) (none_at path.now why ∷ [])) };
}
