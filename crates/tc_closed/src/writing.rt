//! The writing of bytes, and the exit status.
ghost use Rattle.std.specs.Prelude.{◌≡◌, if◌then◌else◌, IfErr};
ghost use Rattle.tc_types.specs.Counts.{counts_of, no_counts};
ghost use Rattle.tc_front.specs.Write.{Writes, seen};
ghost use Rattle.tc_closed.specs.Scripts.{written_counts};

use crate::scripts::ScriptFault;
use std::io::Write;
use tc_front::write_whole;
use tc_types::Counted;

/// The exit status, where some line was refused or none was.
pub fn status_of(refused: bool) -> u8
    ensures { result ≡ (if refused then 1 else 0) }
{
    if refused { 1 } else { 0 }
}

/// Writes all bytes, until a write fails.
pub fn put<W: Write>(writer: &mut Counted<W>, bytes: &[u8]) -> Result<(), ScriptFault>
    ensures writes { Writes bytes.now (seen W.contents writer.old) (seen W.contents writer.new) result }
    ensures fault { IfErr result (λ fault. fault ≡ ScriptFault.Output) }
    ensures counted { counts_of writer.old ≡ no_counts → counts_of writer.new ≡ written_counts result }
{
    Ok(write_whole(writer, bytes)?)
}
