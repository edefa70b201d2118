//! The link, tested from outside: a link that skips, and what the tests of the whole link share.
#![tactic(auto)]

#[cfg(test)]
mod links;
pub mod skipping;
#[cfg(test)]
mod tests;
