//! The desk's tables in a database: what they hold is a ledger, and a batch is written whole or not at all.
//!
//! The clauses say what the tables hold by `HoldsAs version database ledger`, and by `Holds` of the newest version. What a fault leaves is said by `Survives`: after a
//! crash the database has what it had before the call, or what the call commits.
#![tactic(auto)]

mod approvals;
mod batches;
mod call_numbers;
mod cargo;
mod cells;
mod creates;
mod executions;
mod faults;
mod history;
mod loads;
mod migrations;
mod moves;
mod opens;
mod procedure_steps;
mod procedures;
mod records;
mod replies;
mod requests;
mod shifts;
mod stacks;
mod steps;
mod tables;
mod tallies;
mod versions;
mod writes;

pub use batches::{Batch, KeptReply};
pub use call_numbers::CallNumber;
pub use faults::{ReadFault, StoreFault};
pub use shifts::ShiftPage;
pub use tables::Tables;
pub use versions::{Layout, NEWEST, Version};
