//! The tests of `tc_csv`, `tc_stack` and `tc_proc`, in a crate of their own.
#![tactic(auto)]

#[cfg(test)]
mod tests;
