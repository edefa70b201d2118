//! The rows of a control word.

/// The rows P1 to P16 of the state table (CCSDS 232.1-B, 5.3); P16 is a word that is not valid. A row that removes
/// acknowledged requests carries how many.
#[derive(Clone, Copy, Debug, PartialEq, Eq)]
pub enum FopRow {
    /// No flag, and nothing is out.
    P1,
    /// No flag, and all that is out is acknowledged.
    P2(u8),
    /// Wait, and nothing is missing.
    P3,
    /// Retransmit, and nothing is missing.
    P4,
    /// No flag, and nothing more is acknowledged.
    P5,
    /// No flag, and some of what is out is acknowledged.
    P6(u8),
    /// Wait without Retransmit.
    P7,
    /// Retransmit, where each frame is sent only once.
    P8(u8),
    /// Retransmit, and some of what is out is acknowledged.
    P9(u8),
    /// Retransmit and Wait, and some of what is out is acknowledged.
    P10(u8),
    /// Retransmit, and it may be sent once more.
    P11,
    /// Retransmit and Wait, and nothing more is acknowledged.
    P12,
    /// Retransmit, and it was sent as often as it may be.
    P13,
    /// The report value is no number of a frame that is out.
    P14,
    /// Lockout.
    P15,
    /// The control word is not valid.
    P16,
}
