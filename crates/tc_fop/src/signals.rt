//! The states of the FOP, and its indications.
use tc_types::RequestNumber;

/// The states of FOP-1 (CCSDS 232.1-B, 5.1.2).
#[derive(Clone, Copy, Debug, PartialEq, Eq)]
pub enum FopState {
    /// S1 Active.
    Active,
    /// S2 Retransmit without Wait.
    RetransmitWithoutWait,
    /// S3 Retransmit with Wait.
    RetransmitWithWait,
    /// S4 Initialising without BC Frame.
    InitialisingWithoutBc,
    /// S5 Initialising with BC Frame.
    InitialisingWithBc,
    /// S6 Initial.
    Initial,
}

/// Why the FOP stopped its service (CCSDS 232.1-B, 5.2.7).
#[derive(Clone, Copy, Debug, PartialEq, Eq)]
pub enum AlertKind {
    /// The Transmission_Limit was reached.
    Limit,
    /// The timer ended.
    T1,
    /// The FARM is in Lockout.
    Lockout,
    /// The counters do not fit what was sent.
    Synch,
    /// The report value acknowledges what was not sent.
    NnR,
    /// The control word is not valid, or its flags do not fit.
    Clcw,
    /// A person terminated the service.
    Term,
}

/// What the FOP indicates of a request, or of itself.
#[derive(Clone, Copy, Debug, PartialEq, Eq)]
pub enum Indication {
    /// The request was transmitted for the first time.
    Sent(RequestNumber),
    /// The control word acknowledges the request.
    Confirmed(RequestNumber),
    /// The request was not transmitted, and is given back.
    GivenBack(RequestNumber),
    /// The request was transmitted, and is not acknowledged.
    InDoubt(RequestNumber),
    /// The service stopped.
    Alert(AlertKind),
    /// The service began: S1 was reached by an initiation.
    Started,
}
