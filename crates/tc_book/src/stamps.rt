//! Who acts, and when.
use tc_types::{Moment, Person};

/// What each row of a person's act carries.
#[derive(Clone, Copy, Debug, PartialEq, Eq)]
pub struct Stamp {
    /// Who gave the act.
    pub by: Person,
    /// When, as the act said: no clock is read.
    pub moment: Moment,
}
