//! The on-board side of the link: the control word (CLCW, CCSDS 232.0-B) and FARM-1 (CCSDS 232.1-B).
#![tactic(auto)]

mod clcws;
mod farms;
pub mod laws;

pub use clcws::Clcw;
pub use farms::{Farm, FarmState, FarmView, FrameVerdict};
