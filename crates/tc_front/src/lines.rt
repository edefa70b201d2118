//! The lines of a head that is written.
ghost use Rattle.std.specs.Prelude.{◌≡◌, IfOk};
ghost use Rattle.std.specs.String.{string_bytes};
ghost use Rattle.tc_front.specs.Lines.{length_line};

use std::alloc::{AllocError, Global};

/// The line of the body's length, without its end.
pub fn length_line(alloc: Global, size: usize) -> Result<String, AllocError>
    ensures { IfOk result (λ line. string_bytes line ≡ length_line size) }
{
    format!(in alloc; "Content-Length: {size}")
}
