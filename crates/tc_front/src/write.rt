//! The writing of all bytes of an answer.
ghost use Rattle.tc_front.specs.Write.{Writes, seen};

use std::io;
use std::io::Write;
use tc_types::{Counted, Refusal};

/// A write failed, or took nothing.
#[derive(Clone, Copy, Debug, PartialEq, Eq)]
pub struct Unwritten;

impl From<io::Error> for Unwritten {
    fn from(_error: io::Error) -> Unwritten {
        Unwritten
    }
}

impl From<Unwritten> for Refusal {
    ghost use Rattle.std.specs.Prelude.{◌≡◌};
    ghost use Rattle.tc_types.specs.declared.refusals.Refusal.TheVariants.{WriteFault};

    ghost from_gives = { λ _ refusal. refusal ≡ WriteFault };

    fn from(_fault: Unwritten) -> Refusal {
        Refusal::WriteFault
    }
}

/// Writes all bytes, until a write fails. What the writer holds back is the caller's to flush.
///
/// # Errors
///
/// `Unwritten` where one write failed, by the count of a writer that counted nothing before. A front of the bytes went out, and not all.
pub fn write_whole<W: Write>(writer: &mut Counted<W>, bytes: &[u8]) -> Result<(), Unwritten>
    ensures { Writes bytes.now (seen W.contents writer.old) (seen W.contents writer.new) result }
{
    let mut done = 0;
    while done < bytes.len() {
        let count = writer.write(&bytes[done..])?;
        if count == 0 {
            return Err(Unwritten);
        }
        done += count;
    }
    Ok(())
}
