//! The rows of the table `cargo`.
use crate::numbers::RequestNumber;
use crate::rides::Ride;

/// A row of the table `cargo`: what an insert names at one of the positions behind the first. The first stands in the row of the
/// request itself.
#[derive(Clone, Copy, Debug, PartialEq, Eq)]
pub struct Cargo {
    /// The insert.
    pub request: RequestNumber,
    /// The position in its list, from 1.
    pub position: u8,
    /// The request that is named there, and when it is released.
    pub ride: Ride,
}
