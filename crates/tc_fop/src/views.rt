//! What a status line prints of a FOP.
use crate::signals::FopState;

/// The variables of a FOP, without the requests in its queues.
#[derive(Clone, Copy, Debug, PartialEq, Eq)]
pub struct FopView {
    /// The state.
    pub state: FopState,
    /// V(S), the number of the next frame.
    pub vs: u8,
    /// NN(R), the number of the oldest frame that is not acknowledged.
    pub nn: u8,
    /// How many requests are in the Sent_Queue.
    pub sent: u8,
    /// How many requests wait: 0 or 1.
    pub waiting: u8,
    /// Transmission_Count.
    pub count: u8,
    /// The ticks that are left; 0 is not running.
    pub timer: u16,
    /// K, the FOP sliding window width.
    pub k: u8,
    /// T1_Initial, in ticks.
    pub t1: u16,
    /// Transmission_Limit.
    pub limit: u8,
}
