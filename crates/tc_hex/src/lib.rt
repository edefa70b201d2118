//! Octets that are written as hexadecimal digits, and what they are answered: what they mean, or that a text spells none.
#![tactic(auto)]

mod answering;
mod answers;
mod hex_texts;
mod profile_problems;

pub use answering::{AnswerFault, write_answer, write_answers};
pub use answers::{Answer, answer_text};
pub use hex_texts::{HexFault, MOST_CHARACTERS, MOST_OCTETS, octets_in};
pub use profile_problems::problem;
