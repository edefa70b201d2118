//! What is written at once, or not at all.
use crate::call_numbers::CallNumber;
use crate::versions::Version;
use tc_types::{Person, Row};

/// A row of the table `reply`: what an act or a load was answered that was accepted under a number of its caller.
#[derive(Clone, Copy)]
pub struct KeptReply<'a> {
    /// The caller.
    pub person: Person,
    /// The number that the caller gave it.
    pub number: CallNumber,
    /// The lines of the reply, each ended by LF.
    pub body: &'a str,
}

/// Tables of an earlier version become those of the newest, then come the rows, then the reply.
#[derive(Clone, Copy)]
pub struct Batch<'a> {
    /// The version of the tables that stand, where it is not the newest.
    pub migrates: Option<Version>,
    /// The rows, in order.
    pub rows: &'a [Row],
    /// The reply that is kept, if one is.
    pub reply: Option<KeptReply<'a>>,
}
