//! The first line of a reply.
use tc_book::First;
use tc_types::{Identity, Moment, RequestNumber, Verification};

/// What the first line of a reply says.
#[derive(Clone, Copy, Debug, PartialEq, Eq)]
pub enum FirstLine {
    /// As an act on the book says, or `ok` alone.
    Book(First),
    /// `ok nothing`: nothing was in flight there.
    Nothing,
    /// `ok accepted N`: the FARM took the frame of this request.
    Accepted(RequestNumber),
    /// `ok discarded`: the FARM did not take the frame.
    Discarded,
    /// `ok control`: the frame was a control command.
    Control,
    /// `ok lost`: what stood there was lost.
    Lost,
    /// `ok clcw HHHHHHHH`: a control word came down.
    Word(u32),
    /// `ok tm 1,T APID/COUNT step N code C`: a report of request verification came down.
    Verified {
        verification: Verification,
        identity: Identity,
    },
    /// `ok tm 11,13 enabled N`, or `disabled N`: a summary of so many activities came down.
    Summarized {
        enabled: bool,
        count: u32,
    },
    /// `ok work APID/COUNT`: the spacecraft carried out this request.
    Worked(Identity),
    /// `ok now T`: the spacecraft's time.
    Now(Moment),
}
