//! A script: the faults that end its run, and the reading of its text.
ghost use Rattle.std.specs.Prelude.{◌≡◌, ◌≢◌, ◌≤◌, Err, IfErr, IfOk, OnOk, vec_len};
ghost use Rattle.std.specs.Io.KnownBytes.{Consumes, IsAtEnd};
ghost use Rattle.tc_types.specs.Counts.{counts_of, inner_of, no_counts};
ghost use Rattle.tc_closed.specs.Scripts.{IsUnread, IsUnreadable, fault_of, fault_of_database};
ghost use Rattle.tc_closed.specs.declared.scripts.ScriptFault.TheVariants.{Memory, Output};

use sqlite::ErrorCode;
use std::alloc::{AllocError, Global};
use std::io::Read;
use tc_front::Unwritten;
use tc_types::{Counted, Refusal, Untold};
use thiserror::Error;

/// How many bytes a script has at most.
pub const LARGEST_SCRIPT: usize = 1_048_576;

/// How many times a script's reader is read at most.
pub const MOST_READS: usize = 100_000;

/// Why the run of a script ended before its end.
#[derive(Clone, Copy, Debug, PartialEq, Eq, Error)]
pub enum ScriptFault {
    /// The script could not be read: its reader failed, gave more than 1,048,576 bytes, or was read
    /// more than 100,000 times. No line was run.
    #[error("script")]
    Script,
    /// A reply could not be written. The acts that were acknowledged stand.
    #[error("output")]
    Output,
    /// There was no memory to go on: for the script, to open the desk, for a text that a line loads, or for that of a reply, of which the act
    /// stands then. What was written are the replies to the lines before.
    #[error("memory")]
    Memory,
    /// The tables of the desk could not be made, and no line was run; or those of a report could not be read.
    #[error("tables")]
    Tables,
    /// A line loads the stack or the procedure at a path that gives no text. The lines before it stand, and were answered.
    #[error("path")]
    Path,
    /// The window is not even and 2 to 254, or the channel is above 63. No line was run.
    #[error("config")]
    Config,
}

impl From<AllocError> for ScriptFault {
    ghost from_gives = { λ _ fault. fault ≡ Memory };

    fn from(_error: AllocError) -> ScriptFault {
        ScriptFault::Memory
    }
}

impl From<Unwritten> for ScriptFault {
    ghost from_gives = { λ _ fault. fault ≡ Output };

    fn from(_unwritten: Unwritten) -> ScriptFault {
        ScriptFault::Output
    }
}

impl From<Untold> for ScriptFault {
    ghost from_gives = { λ _ fault. fault ≡ Memory };

    fn from(_untold: Untold) -> ScriptFault {
        ScriptFault::Memory
    }
}

impl From<sqlite::Error> for ScriptFault {
    ghost from_gives = { λ error fault. fault ≡ fault_of_database error };

    /// Want of memory as such, any other error of the database as that of the tables.
    fn from(error: sqlite::Error) -> ScriptFault {
        match error {
            sqlite::Error::SqliteFailure(ErrorCode::OutOfMemory) => ScriptFault::Memory,
            _ => ScriptFault::Tables,
        }
    }
}

impl From<Refusal> for ScriptFault {
    ghost from_gives = { λ given fault. fault ≡ fault_of given };

    fn from(refusal: Refusal) -> ScriptFault {
        match refusal {
            Refusal::BadDirective => ScriptFault::Config,
            Refusal::Memory => ScriptFault::Memory,
            _ => ScriptFault::Tables,
        }
    }
}

/// Reads a script to its end. It fails with `Script` and `Memory` alone.
pub fn read_script<R: Read>(alloc: Global, reader: &mut Counted<R>) -> Result<Vec<u8>, ScriptFault>
    requires { counts_of reader.old ≡ no_counts }
    ensures taken { IfOk result (λ text.
        Consumes (R.remaining (inner_of reader.old)) (R.remaining (inner_of reader.new)) text.items) }
    ensures whole { OnOk result (IsAtEnd (R.remaining (inner_of reader.new))) }
    ensures short { IfOk result (λ text. vec_len text ≤ LARGEST_SCRIPT) }
    ensures ended { OnOk result ((counts_of reader.new).ends ≡ 1) }
    ensures fault { IfErr result IsUnread }
    ensures script { result ≡ Err ScriptFault.Script →
        IsUnreadable (counts_of reader.new) (R.remaining (inner_of reader.old)) (R.remaining (inner_of reader.new)) }
    ensures failed { (counts_of reader.new).faults ≢ 0 → result ≡ Err ScriptFault.Script }
    ensures few { (counts_of reader.new).reads ≤ MOST_READS }
{
    let mut text = Vec::new(alloc);
    let mut buffer = [0; 4096];
    for _ in 0..MOST_READS {
        let Ok(count) = reader.read(&mut buffer) else {
            return Err(ScriptFault::Script);
        };
        if count == 0 {
            return Ok(text);
        }
        if LARGEST_SCRIPT - text.len() < count {
            return Err(ScriptFault::Script);
        }
        text.extend_from_slice(&buffer[..count])?;
    }
    Err(ScriptFault::Script)
}
