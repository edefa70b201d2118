//! Procedures, what is recorded of the steps of an execution, and the log of all of it.
#![tactic(auto)]

mod executions;
mod faults;
mod logs;
mod procedures;
mod records;
mod reopening;
mod states;
mod steps;

pub use executions::Execution;
pub use faults::ReopenFault;
pub use logs::ProcedureLog;
pub use procedures::{Procedure, Step};
