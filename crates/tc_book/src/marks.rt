//! How much of the book stood before an act.
use tc_types::PLACES;

/// How many requests, rows and approvals stood, and how many requests at each place.
#[derive(Clone, Copy, Debug, PartialEq, Eq)]
pub struct Mark {
    /// How many requests.
    pub requests: usize,
    /// How many rows of the history.
    pub rows: usize,
    /// How many approvals of requests.
    pub approvals: usize,
    /// How many approvals of stacks.
    pub stack_approvals: usize,
    /// How many procedures.
    pub procedures: usize,
    /// How many steps of procedures.
    pub steps: usize,
    /// How many executions.
    pub executions: usize,
    /// How many records of steps.
    pub records: usize,
    /// How many requests at each place, in order of number.
    pub tallies: [u32; PLACES],
}
