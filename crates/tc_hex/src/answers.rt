//! The answer of a text of octets.
ghost use Rattle.std.specs.Prelude.{◌≡◌, ◌≤◌, IfOk, length};
ghost use Rattle.std.specs.String.{string_bytes};
ghost use Rattle.tc_hex.specs.Answers.{Answers, Means, fault_line, lines_text};

use crate::hex_texts::{HexFault, octets_in};
use std::alloc::{AllocError, Global};
use tc_decoded::{Layer, Line, decoded, has_fault};
use tc_octets::Profile;

/// The answer of a text.
#[derive(Drop)]
pub struct Answer {
    /// Its lines, each with an LF.
    pub text: String,
    /// Whether the text spells octets, and these were read whole.
    pub is_whole: bool,
}

/// Returns the line of a text that spells no octets.
fn fault_line(alloc: Global, fault: HexFault) -> Result<String, AllocError>
    ensures { IfOk result (λ text. string_bytes text ≡ fault_line fault) }
{
    match fault {
        HexFault::NoPair(at) => format!(in alloc;
            "not octets: no pair of hexadecimal digits at character {at}\n"
        ),
        HexFault::TooLong => String::from_str(
            alloc,
            "not octets: more than 65542 octets, or than 262168 characters\n",
        ),
        HexFault::Memory => Ok(String::new(alloc)),
    }
}

/// Returns lines as a text, each with an LF.
fn lines_text(alloc: Global, lines: &[Line]) -> Result<String, AllocError>
    ensures { IfOk result (λ text. string_bytes text ≡ lines_text lines.now) }
{
    let mut text = String::new(alloc);
    for line in lines {
        let shown = format!(in alloc; "{line}\n")?;
        text.push_str(shown.as_str())?;
    }
    Ok(text)
}

/// Returns what octets mean in a layer of a link with this profile.
fn answer_octets(
    alloc: Global,
    profile: &Profile,
    layer: Layer,
    octets: &[u8],
) -> Result<Answer, AllocError>
    requires { length octets.now ≤ 65542 }
    ensures { IfOk result (λ answer. Means profile.now layer octets.now (string_bytes answer.text) answer.is_whole) }
{
    let lines = decoded(alloc, profile, layer, octets)?;
    Ok(Answer {
        text: lines_text(alloc, &lines)?,
        is_whole: !has_fault(&lines),
    })
}

/// Returns the answer of a text: what its octets mean, field by field, or that it spells none.
pub fn answer_text(
    alloc: Global,
    profile: &Profile,
    layer: Layer,
    text: &[u8],
) -> Result<Answer, AllocError>
    ensures { IfOk result (λ answer. Answers profile.now layer text.now (string_bytes answer.text) answer.is_whole) }
{
    match octets_in(alloc, text) {
        Ok(octets) => answer_octets(alloc, profile, layer, &octets),
        Err(HexFault::Memory) => Err(AllocError),
        Err(fault) => Ok(Answer {
            text: fault_line(alloc, fault)?,
            is_whole: false,
        }),
    }
}
