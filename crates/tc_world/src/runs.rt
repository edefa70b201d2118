//! How far a run went.
use tc_types::Refusal;

/// How far a run went: so many events, and why the next one was refused, where one was.
#[derive(Clone, Copy, Debug, PartialEq, Eq)]
pub struct RunEnd {
    /// How many events happened.
    pub done: usize,
    /// The refusal of the next event.
    pub refusal: Option<Refusal>,
}
