//! Who approved what; stacks of requests, and when a row of one may be released.
#![tactic(auto)]

mod approvals;
mod interlocks;
mod stacks;

pub use approvals::Approvals;
pub use stacks::{Stack, StackRow, row_at};
