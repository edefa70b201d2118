//! Values that were found, as they are shown.
ghost use Rattle.std.specs.Prelude.{◌≡◌, ◌<◌, ◌++◌, length, take, IfOk, OnOk};
ghost use Rattle.std.specs.List.{flat_map};
ghost use Rattle.std.specs.String.{string_bytes};
ghost use Rattle.tc_check.specs.Shown.{hex_digit, is_shown, quoted, shown_byte};

use std::alloc::{AllocError, Global};

/// The most bytes that are shown of a value.
const MOST_SHOWN: usize = 256;

/// Whether a byte is shown as it is: a printable character of ASCII, but for the quote and the backslash.
fn is_shown(byte: u8) -> bool
    ensures { result ≡ is_shown byte }
{
    (32..=126).contains(&byte) && byte != b'"' && byte != b'\\'
}

/// A digit of base 16.
fn hex_digit(value: u8) -> char
    requires { value < 16 }
    ensures value { result ≡ hex_digit value }
    ensures plain { result < 128 }
{
    if value < 10 {
        char::from(b'0' + value)
    } else {
        char::from(b'a' + (value - 10))
    }
}

/// Adds a byte.
#[tactic(auto, using(crate::proofs::ShownLemmas::ascii_pushed))]
fn push_byte(text: &mut String, byte: u8) -> Result<(), AllocError>
    ensures { OnOk result (string_bytes text.new ≡ string_bytes text.old ++ shown_byte byte) }
{
    if is_shown(byte) {
        return text.push(char::from(byte));
    }
    text.push_str("\\x")?;
    text.push(hex_digit(byte / 16))?;
    text.push(hex_digit(byte % 16))
}

/// Adds bytes.
pub(crate) fn push_bytes(text: &mut String, bytes: &[u8]) -> Result<(), AllocError>
    ensures { OnOk result (string_bytes text.new ≡ string_bytes text.old ++ flat_map shown_byte bytes.now) }
{
    for byte in bytes {
        push_byte(text, *byte)?;
    }
    Ok(())
}

/// The front of a value, as much of it as is shown.
fn front(value: &[u8]) -> &[u8]
    requires { 256 < length value.now }
    ensures { result.now ≡ take 256 value.now }
{
    &value[..MOST_SHOWN]
}

/// Returns a value between quotes. Only the first 256 bytes of a longer value are shown, and two dots after them.
pub(crate) fn quoted(alloc: Global, value: &[u8]) -> Result<String, AllocError>
    ensures { IfOk result (λ text. string_bytes text ≡ quoted value.now) }
{
    let mut text = String::from_str(alloc, "\"")?;
    if value.len() <= MOST_SHOWN {
        push_bytes(&mut text, value)?;
        text.push_str("\"")?;
    } else {
        push_bytes(&mut text, front(value))?;
        text.push_str("\"..")?;
    }
    Ok(text)
}
