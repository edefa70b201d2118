//! The shift report: what moved between two moments, and where the requests stand now, as a text for people.
//!
//! Moments are whole Unix seconds, and are shown in UTC as the crate `jiff` shows them. Every function takes the memory of its text from the
//! allocator that it is given, and fails where that is refused.
#![tactic(auto)]

mod columns;
mod heads;
pub mod laws;
mod move_lines;
mod premises;
mod reports;
mod shifts;
mod texts;
mod times;
mod totals;

pub use heads::head_text;
pub use move_lines::add_rows;
pub use premises::Premise;
pub use reports::{END, report_text};
pub use texts::add_line;
pub use totals::total;
