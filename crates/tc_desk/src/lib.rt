//! The desk: every act of a person, on the book that `tc_book` keeps, over the link of `tc_world` to the rehearsal spacecraft
//! of `tc_board`.
//!
//! A contract sees a `Desk` as its `State`. What an act does is a relation between the state before and the one after.
#![tactic(auto)]

mod acts;
mod commands;
mod desks;
mod dones;
mod downlinks;
mod firsts;
mod flights;
mod hearing;
mod moving;
mod parts;
mod reopening;
mod reporting;
mod status_texts;
mod statuses;

pub use desks::{Desk, Reopened};
pub use dones::Done;
pub use firsts::FirstLine;
pub use status_texts::{carriers_text, farm_text, fop_text, premise_name, told_text};
pub use statuses::{KnownSchedule, LinkStatus};
