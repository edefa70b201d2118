//! What SQL texts mean, said once for all tables.
//! The words stand in `specs/`, the lemmas in `proofs/`: how a row fits its columns, what an INSERT puts, what a chain of CREATE makes, what a SELECT lists.
//! A crate above names its own tables and cites them. Whether two schemas are one is the only code.
#![tactic(auto)]

mod schemas;

pub use schemas::is_same_schema;
