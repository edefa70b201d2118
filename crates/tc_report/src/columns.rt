//! Texts in columns of a width.
ghost use Rattle.std.specs.Prelude.{◌≡◌, ◌++◌, replicate, IfOk, OnOk};
ghost use Rattle.std.specs.String.{string_bytes};
ghost use Rattle.std.specs.Fmt.{decimal};
ghost use Rattle.tc_report.specs.ShiftReport.{left_in, right_in};

use std::alloc::{AllocError, Allocator};

/// Adds so many spaces to a text.
fn push_spaces<A: Allocator + Copy>(text: &mut String<A>, count: usize) -> Result<(), AllocError>
    ensures { OnOk result (string_bytes text.new ≡ string_bytes text.old ++ replicate count 32) }
{
    for _ in 0..count {
        text.push(' ')?;
    }
    Ok(())
}

/// A text at the left of so many columns.
pub(crate) fn left_in<A: Allocator + Copy>(
    alloc: A,
    width: usize,
    text: &str,
) -> Result<String<A>, AllocError>
    ensures { IfOk result (λ t. string_bytes t ≡ left_in width text.now) }
{
    let mut shown = String::from_str(alloc, text)?;
    push_spaces(&mut shown, width.saturating_sub(text.len()))?;
    Ok(shown)
}

/// A number at the right of so many columns.
pub(crate) fn right_in<A: Allocator + Copy>(
    alloc: A,
    width: usize,
    number: u32,
) -> Result<String<A>, AllocError>
    ensures { IfOk result (λ t. string_bytes t ≡ right_in width (decimal number)) }
{
    let digits = format!(in alloc; "{number}")?;
    let mut shown = String::new(alloc);
    push_spaces(&mut shown, width.saturating_sub(digits.len()))?;
    shown.push_str(digits.as_str())?;
    Ok(shown)
}
