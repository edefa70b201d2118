//! The tests of tc_farm and tc_fop: both ends of the link, each alone.
#![tactic(auto)]

#[cfg(test)]
mod tests;
