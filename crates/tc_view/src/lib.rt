//! What the wall shows of a desk: of its book, its link and its on-board schedule; and of the book of a file that nobody has open.
//!
//! `tc_wall` makes the page of a `Wall`. Here a wall is filled from a book and a desk, as they stand, and nothing is kept.
#![tactic(auto)]

mod adding;
mod gathering;
pub mod laws;
mod lives;
mod opens;
mod pages;
mod trails;
mod urgents;

pub use pages::{desk_page, file_page};
