//! What flies: frames on the uplink, reports on the downlink. They are typed records; a frame carries the request's
//! number beside its identity (this desk's own).
use crate::link::telecommands::Payload;
use crate::numbers::RequestNumber;

/// A frame on the uplink.
#[derive(Clone, Copy, Debug, PartialEq, Eq)]
pub enum Frame {
    /// A type-AD frame with its frame sequence number N(S) (CCSDS 232.0-B, 4.1.2.8).
    Ad {
        ns: u8,
        request: RequestNumber,
        body: Payload,
    },
    /// The control command Unlock (CCSDS 232.0-B, 4.1.3.3.2).
    Unlock,
    /// The control command Set V(R) (CCSDS 232.0-B, 4.1.3.3.3).
    SetVr(u8),
}
