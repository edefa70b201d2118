//! Lines of a text.
ghost use Rattle.std.specs.Prelude.{◌≡◌, ◌++◌, ◌∷◌, [], OnOk};
ghost use Rattle.std.specs.String.{string_bytes};
ghost use Rattle.tc_report.specs.Texts.{ended};

use std::alloc::{AllocError, Allocator};

/// Adds a line to a text, which is ended by LF.
pub fn add_line<A: Allocator + Copy>(text: &mut String<A>, line: &str) -> Result<(), AllocError>
    ensures { OnOk result (string_bytes text.new ≡ string_bytes text.old ++ ended (line.now ∷ [])) }
{
    text.push_str(line)?;
    text.push_str("\n")
}
