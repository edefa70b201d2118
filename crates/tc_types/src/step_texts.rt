//! What is done at a step of a procedure, as text. A contract sees a `StepText` as its bytes.
ghost use Rattle.std.specs.Prelude.{◌≡◌, ◌↔◌, true, IsSome, IfSome};
ghost use Rattle.std.specs.List.{list_all};
ghost use Rattle.tc_types.specs.StepTexts.{is_printable, is_step_text};

use std::marker::Model;
use std::str;

/// The most bytes that the text of a step has.
pub const LONGEST_STEP_TEXT: usize = 80;

/// What is done at a step: 1 to 80 printable characters of ASCII, from the space to `~`.
#[derive(Clone, Copy, Debug, PartialEq, Eq)]
pub struct StepText {
    bytes: [u8; 80],
    len: u8,
}

impl Model for StepText {
    ghost use Rattle.std.specs.Prelude.{◌≡◌, ◌≤◌, ℕ, List, length, take, true};
    ghost use Rattle.tc_types.specs.StepTexts.{is_step_text, padded_step_text};

    ghost Value = { List ℕ };

    ghost view = { λ t. take t.len t.bytes };

    ghost invariant = { λ t. (t.len ≤ 80) × (t.bytes ≡ padded_step_text (take t.len t.bytes)) × (length t.bytes ≡ 80) × (is_step_text (take t.len t.bytes) ≡ true) };

    ghost inverse = { λ text. record { bytes = padded_step_text text; len = length text } };
}

/// Whether this byte is printable.
fn is_printable(byte: u8) -> bool
    ensures { result ≡ is_printable byte }
{
    byte >= b' ' && byte <= b'~'
}

/// Whether all these bytes are printable.
fn are_printable(bytes: &[u8]) -> bool
    ensures { result ≡ list_all is_printable bytes.now }
{
    bytes.iter().all(|byte| is_printable(*byte))
}

/// Whether these bytes are the text of a step.
fn is_step_text(bytes: &[u8]) -> bool
    ensures { result ≡ is_step_text bytes.now }
{
    !bytes.is_empty() && bytes.len() <= LONGEST_STEP_TEXT && are_printable(bytes)
}

impl StepText {
    /// The text with these bytes; `None` where they are none.
    pub fn read(bytes: &[u8]) -> Option<StepText>
        ensures found { IsSome result ↔ is_step_text bytes.now ≡ true }
        ensures value { IfSome result (λ t. t ≡ bytes.now) }
    {
        if !is_step_text(bytes) {
            return None;
        }
        let mut padded = [0; LONGEST_STEP_TEXT];
        padded[..bytes.len()].copy_from_slice(bytes);
        Some(StepText {
            bytes: padded,
            len: bytes.len() as u8,
        })
    }

    /// A text has its form: its type keeps it. This does nothing; its clause is the law.
    pub fn keeps_form(&self)
        ensures { is_step_text self.now ≡ true }
    {
        let _length = self.len; // read for the proof alone
    }

    /// The text as it is printed.
    pub fn as_str(&self) -> &str
        ensures { result.now ≡ self.now }
    {
        str::from_utf8(&self.bytes[..usize::from(self.len)]).unwrap()
    }
}
