//! What the FOP can be told to do.

/// A directive to the FOP (CCSDS 232.1-B, 5.2.2).
#[derive(Clone, Copy, Debug, PartialEq, Eq)]
pub enum Directive {
    /// Initiate AD service without CLCW check.
    InitiateNone,
    /// Initiate AD service with CLCW check.
    InitiateCheck,
    /// Initiate AD service with Unlock.
    InitiateUnlock,
    /// Initiate AD service with Set V(R).
    InitiateSetVr(u8),
    /// Terminate AD service.
    Terminate,
    /// Set V(S).
    SetVs(u8),
    /// Set the FOP sliding window width K, 1 to 255.
    SetK(u8),
    /// Set T1_Initial, 1 to 65,535 ticks.
    SetT1(u16),
    /// Set the Transmission_Limit, 1 to 255.
    SetLimit(u8),
}
