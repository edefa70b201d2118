//! How the link stands, as its three lines tell it.

/// The states of FOP-1 (CCSDS 232.1-B, 5.1.2).
#[derive(Clone, Copy, Debug)]
pub enum FopWord {
    /// S1 Active.
    Active,
    /// S2 Retransmit without Wait.
    RetransmitWithoutWait,
    /// S3 Retransmit with Wait.
    RetransmitWithWait,
    /// S4 Initialising without BC Frame.
    InitialisingWithoutBc,
    /// S5 Initialising with BC Frame.
    InitialisingWithBc,
    /// S6 Initial.
    Initial,
}

/// The states of FARM-1 (CCSDS 232.1-B, 6.1.2).
#[derive(Clone, Copy, Debug)]
pub enum FarmWord {
    /// S1 Open.
    Open,
    /// S2 Wait.
    Wait,
    /// S3 Lockout.
    Lockout,
}

/// What the line of the FOP tells.
#[derive(Clone, Copy, Debug)]
pub struct FopLine {
    /// The state.
    pub state: FopWord,
    /// V(S), the number of the next frame.
    pub vs: u8,
    /// NN(R), the number of the oldest frame that is not acknowledged.
    pub nn: u8,
    /// How many requests are in the Sent_Queue.
    pub sent: u8,
    /// How many requests wait to be sent: 0 or 1.
    pub waiting: u8,
    /// Transmission_Count.
    pub count: u8,
    /// The ticks that are left; 0 is not running.
    pub timer: u16,
    /// K, the FOP sliding window width.
    pub k: u8,
    /// T1_Initial, in ticks.
    pub t1: u16,
    /// Transmission_Limit.
    pub limit: u8,
}

/// What the line of the FARM tells.
#[derive(Clone, Copy, Debug)]
pub struct FarmLine {
    /// The state.
    pub state: FarmWord,
    /// V(R), the number of the frame that is expected next.
    pub vr: u8,
    /// FARM-B, how many control commands were taken, modulo 4.
    pub farm_b: u8,
    /// The Lockout flag.
    pub lockout: bool,
    /// The Wait flag.
    pub wait: bool,
    /// The Retransmit flag.
    pub retransmit: bool,
    /// W, the window's width.
    pub window: u8,
}

/// What the three lines of the link tell.
#[derive(Clone, Copy, Debug)]
pub struct LinkLines {
    /// The FOP.
    pub fop: FopLine,
    /// The FARM.
    pub farm: FarmLine,
    /// How many frames are in flight.
    pub up: usize,
    /// How many control words and reports are in flight.
    pub down: usize,
    /// Whether every start so far was good.
    pub clean: bool,
}
