//! What is wrong with a file, in words for a person: with the text of a stack or of a procedure, and with a script.
#![tactic(auto)]

mod checks;
mod file_lines;
mod findings;
mod found;
mod headers;
mod line_texts;
mod looks;
mod notes;
mod places;
mod records;
mod scripts;
mod shown;
mod sources;
mod told;
mod words;

pub use checks::{Checked, check_text};
pub use findings::Findings;
pub use scripts::{check_script, is_skipped, load_line, script_line};
pub use sources::Texts;
