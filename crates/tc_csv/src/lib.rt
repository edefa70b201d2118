//! Texts of comma-separated values: their records, the rules that a table of each kind keeps, and the stacks and procedures that they spell.
//!
//! Records and quoting are those of the crate `csv` (RFC 4180), instants those of the crate `jiff` (RFC 3339). What is asked of a table is this
//! desk's own.
#![tactic(auto)]

mod columns;
mod faults;
mod fields;
mod instants;
mod procedure_texts;
mod stack_texts;
mod tables;

pub use columns::Column;
pub use faults::{Fault, NotRead, Rule};
pub use fields::{field, optional_number};
pub use instants::instant;
pub use procedure_texts::judging::{procedure_columns, procedure_faults};
pub use procedure_texts::readers::{read_procedure, why_no_procedure};
pub use stack_texts::judging::{stack_columns, stack_faults};
pub use stack_texts::readers::{read_stack, why_no_stack};
pub use tables::{read_records, read_table};
