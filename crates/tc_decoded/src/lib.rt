//! The meaning of the octets of a link, field by field, or the first fault with its place.
//!
//! Everything here is a function of values. Nothing reads a socket or a clock.
#![tactic(auto)]

/// A row of a field: its name, the octet and the bit at which it begins, its bits, and how it is shown; then the word and what it must be.
macro_rules! row {
    ($name:ident, $octet:expr, $bit:literal, $bits:literal, $shown:ident) => {
        row!($name, $octet, $bit, $bits, $shown, Word::Length, Fit::Any)
    };
    ($name:ident, $octet:expr, $bit:literal, $bits:literal, $shown:ident, $word:expr, $fit:expr) => {
        Row {
            name: Name::$name,
            octet: $octet,
            source: Source::Field(Span {
                bit: $bit,
                bits: $bits,
            }),
            shown: Shown::$shown,
            fit: $fit,
            word: $word,
        }
    };
}

/// A row of octets that were counted: its name, the octet at which they begin, how many, the word, and what they must be.
macro_rules! count {
    ($name:ident, $octet:expr, $number:expr, $word:expr, $fit:expr) => {
        Row {
            name: Name::$name,
            octet: $octet,
            source: Source::Count($number),
            shown: Shown::Octets,
            fit: $fit,
            word: $word,
        }
    };
}

mod cltus;
mod decoding;
mod inserts;
mod line_texts;
mod lines;
mod names;
mod places;
mod reports;
mod rows;
mod summaries;
mod tables;
mod tc_frames;
mod telecommands;
mod telemetry;
mod telling;
mod tm_frames;

pub use decoding::{Layer, MOST_OCTETS, decoded, has_fault};
pub use lines::Line;
