//! The texts of lines.
ghost use Rattle.std.specs.Prelude.{◌≡◌, None, Some};
ghost use Rattle.std.specs.Option.{MatchOption};
ghost use Rattle.tc_decoded.specs.LineTexts.{command_word, fit_text, is_are, line_text, number_of, shown_text, unit, word_of};

use crate::lines::Line;
use crate::rows::{Fit, Shown};
use std::fmt;

/// Returns the word of a control command, if it has one.
fn command_word(value: u64) -> Option<&'static str>
    ensures { MatchOption result (command_word value ≡ None) (λ word. command_word value ≡ Some word.now) }
{
    match value {
        0 => Some("Unlock"),
        0x82 => Some("Set V(R)"),
        _ => None,
    }
}

/// Returns the word of an outcome, if it has one.
fn outcome_word(value: u64) -> Option<&'static str>
    ensures { MatchOption result (word_of Shown.Outcome value ≡ None) (λ word. word_of Shown.Outcome value ≡ Some word.now) }
{
    match value {
        0 => Some("completes"),
        1 => Some("completes in steps"),
        2 => Some("refuses"),
        3 => Some("start fails"),
        4 => Some("halts"),
        5 => Some("fails"),
        _ => None,
    }
}

/// Returns the word of a value that has one.
fn word_of(shown: Shown, value: u64) -> Option<&'static str>
    ensures { MatchOption result (word_of shown value ≡ None) (λ word. word_of shown value ≡ Some word.now) }
{
    match (shown, value) {
        (Shown::Flag, 0) => Some("no"),
        (Shown::Flag, 1) => Some("yes"),
        (Shown::Kind, 0) => Some("telemetry"),
        (Shown::Kind, 1) => Some("telecommand"),
        (Shown::Sequence, 0) => Some("continuation"),
        (Shown::Sequence, 1) => Some("first"),
        (Shown::Sequence, 2) => Some("last"),
        (Shown::Sequence, 3) => Some("unsegmented"),
        (Shown::Status, 0) => Some("disabled"),
        (Shown::Status, 1) => Some("enabled"),
        (Shown::Command, value) => command_word(value),
        (Shown::Outcome, value) => outcome_word(value),
        _ => None,
    }
}

/// Returns the unit of so many octets.
fn unit(value: u64) -> &'static str
    ensures { result.now ≡ unit value }
{
    if value == 1 { " octet" } else { " octets" }
}

/// Returns the verb of so many octets.
fn is_are(value: u64) -> &'static str
    ensures { result.now ≡ is_are value }
{
    if value == 1 {
        " is given"
    } else {
        " are given"
    }
}

/// A number of 32 bits in two's complement.
#[derive(Clone, Copy)]
struct Offset(u64);

impl fmt::Display for Offset {
    ghost use Rattle.tc_decoded.specs.LineTexts.{offset_text};

    ghost output = { λ offset. Some (offset_text offset.0) };

    fn fmt<W: fmt::Write>(&self, f: &mut fmt::Formatter<W>) -> fmt::Result {
        let value = self.0;
        if value < 0x8000_0000 {
            write!(f, "{value}")
        } else {
            let below = 0x1_0000_0000u64.saturating_sub(value);
            write!(f, "-{below}")
        }
    }
}

/// A value without a word.
#[derive(Clone, Copy)]
struct Digits {
    shown: Shown,
    value: u64,
}

impl fmt::Display for Digits {
    ghost output = { λ digits. Some (number_of digits.shown digits.value) };

    fn fmt<W: fmt::Write>(&self, f: &mut fmt::Formatter<W>) -> fmt::Result {
        let value = self.value;
        let last = value % 16;
        let third = value / 16 % 16;
        match self.shown {
            Shown::Hexadecimal => {
                let first = value / 4096 % 16;
                let second = value / 256 % 16;
                write!(f, "0x{first:x}{second:x}{third:x}{last:x}")
            }
            Shown::Command => write!(f, "0x{third:x}{last:x}"),
            Shown::Octets => write!(f, "{value}{}", unit(value)),
            Shown::Offset => write!(f, "{}", Offset(value)),
            _ => write!(f, "{value}"),
        }
    }
}

/// A value, as it is printed.
#[derive(Clone, Copy)]
struct Value {
    shown: Shown,
    value: u64,
}

impl fmt::Display for Value {
    ghost output = { λ value. Some (shown_text value.shown value.value) };

    fn fmt<W: fmt::Write>(&self, f: &mut fmt::Formatter<W>) -> fmt::Result {
        let shown = self.shown;
        let value = self.value;
        match word_of(shown, value) {
            Some(word) => write!(f, "{word}"),
            None => {
                let digits = Digits { shown, value };
                write!(f, "{digits}")
            }
        }
    }
}

/// The condition on a value, as it is printed.
#[derive(Clone, Copy)]
struct Fault {
    shown: Shown,
    fit: Fit,
}

impl fmt::Display for Fault {
    ghost output = { λ fault. Some (fit_text fault.shown fault.fit) };

    fn fmt<W: fmt::Write>(&self, f: &mut fmt::Formatter<W>) -> fmt::Result {
        let shown = self.shown;
        match self.fit {
            Fit::Any => Ok(()),
            Fit::Is(value) => write!(f, ", but must be {}", Value { shown, value }),
            Fit::Between(least, most) => {
                let least = Value {
                    shown,
                    value: least,
                };
                let most = Value { shown, value: most };
                write!(f, ", but must be {least} to {most}")
            }
            Fit::Least(value) => write!(f, ", but must be at least {}", Value { shown, value }),
            Fit::Most(value) => write!(f, ", but must be at most {}", Value { shown, value }),
            Fit::Given { octets, .. } => {
                write!(f, ", but {octets}{}{}", unit(octets), is_are(octets))
            }
            Fit::Scheduled => write!(f, ", but must be 1, 2, 3, 4, 5, 7, 15 or 17"),
            Fit::Command(_) => write!(f, ", but must be Unlock (00) or Set V(R) (82 00 V)"),
            Fit::Ended => write!(f, ", but no CLTU ends in them"),
            Fit::Refused => write!(f, ", but must be as the link has them"),
        }
    }
}

/// `octet P, NAME: VALUE`, and what the value must be if the line says what is wrong.
impl fmt::Display for Line {
    ghost output = { λ line. Some (line_text line) };

    fn fmt<W: fmt::Write>(&self, f: &mut fmt::Formatter<W>) -> fmt::Result {
        let at = self.at;
        let name = self.name.text();
        let shown = self.shown;
        let value = Value {
            shown,
            value: self.value,
        };
        match self.fault {
            None => write!(f, "octet {at}, {name}: {value}"),
            Some(fit) => {
                let fault = Fault { shown, fit };
                write!(f, "octet {at}, {name}: {value}{fault}")
            }
        }
    }
}
