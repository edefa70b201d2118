//! The check of a script, and of a file that a script would load.
ghost use Rattle.std.specs.Prelude.{◌≡◌, ℕ, List, if◌then◌else◌};
ghost use Rattle.std.specs.Io.KnownBytes.{Appends};
ghost use Rattle.std.specs.String.{string_bytes};
ghost use Rattle.tc_types.specs.Counts.{counts_of, inner_of};
ghost use Rattle.tc_front.specs.Write.{IsCutShort};
ghost use Rattle.tc_check.specs.Scripts.{SaysOfScript};
ghost use Rattle.tc_closed.specs.declared.scripts.ScriptFault.TheVariants.{Output};
ghost use Rattle.tc_closed.specs.Checking.{IsChecked, LeavesCheck, SaysOfText};
ghost use Rattle.tc_closed.specs.Scripts.{Ends};

use crate::scripts::ScriptFault;
use crate::writing::{put, status_of};
use std::alloc::Global;
use std::io::Write;
use tc_check::{Checked, Texts, check_script, check_text};
use tc_types::{Counted, LoadKind};

/// Writes what was said of a file. Gives the exit status: 0 where nothing is wrong with it, else 1.
fn write_checked<W: Write>(checked: &Checked, writer: &mut Counted<W>) -> Result<u8, ScriptFault>
    ensures { Ends (λ status. Appends (W.contents (inner_of writer.old)) (W.contents (inner_of writer.new)) (string_bytes checked.now.text) × (status ≡ (if checked.now.is_ok then 0 else 1)))
        (λ fault. (fault ≡ Output) × (part : List ℕ) × IsCutShort (string_bytes checked.now.text) part × Appends (W.contents (inner_of writer.old)) (W.contents (inner_of writer.new)) part) (counts_of writer.old) (counts_of writer.new) result }
{
    put(writer, checked.text.as_bytes())?;
    Ok(status_of(!checked.is_ok))
}

/// Writes whether a text can be loaded: `ok`, or where it is wrong, and why. Gives the exit status, 0 or 1. Fails with `Memory` where that is
/// refused, and `Output` where a write fails.
pub fn write_check<W: Write>(
    alloc: Global,
    kind: LoadKind,
    text: &[u8],
    writer: &mut Counted<W>,
) -> Result<u8, ScriptFault>
    ensures { Ends (λ status. (whole : List ℕ) × IsChecked (SaysOfText kind text.now) whole status × Appends (W.contents (inner_of writer.old)) (W.contents (inner_of writer.new)) whole)
        (λ fault. (part : List ℕ) × LeavesCheck (SaysOfText kind text.now) fault part × Appends (W.contents (inner_of writer.old)) (W.contents (inner_of writer.new)) part) (counts_of writer.old) (counts_of writer.new) result }
{
    let checked = check_text(alloc, kind, text)?;
    write_checked(&checked, writer)
}

/// Writes what is wrong with the lines of a script, and with the files that they load: `ok`, or a line for each. Gives the exit status, 0 or 1. Fails as
/// `write_check` does.
pub fn write_script_check<T: Texts, W: Write>(
    alloc: Global,
    text: &[u8],
    texts: &mut T,
    writer: &mut Counted<W>,
) -> Result<u8, ScriptFault>
    ensures { Ends (λ status. (whole : List ℕ) × IsChecked (SaysOfScript text.now (T.seen texts.old) (T.seen texts.new)) whole status × Appends (W.contents (inner_of writer.old)) (W.contents (inner_of writer.new)) whole)
        (λ fault. (part : List ℕ) × LeavesCheck (SaysOfScript text.now (T.seen texts.old) (T.seen texts.new)) fault part × Appends (W.contents (inner_of writer.old)) (W.contents (inner_of writer.new)) part) (counts_of writer.old) (counts_of writer.new) result }
{
    let checked = check_script(alloc, text, texts)?;
    write_checked(&checked, writer)
}
