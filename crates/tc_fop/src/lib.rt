//! FOP-1, the ground side of the link (CCSDS 232.1-B), in this desk's profile.
#![tactic(auto)]

mod control_words;
mod directing;
mod fop_rows;
mod fops;
pub mod laws;
mod outputs;
mod queues;
pub mod signals;
mod slots;
mod ticks;
mod variables;
mod views;

pub use fops::Fop;
pub use outputs::{MOST_FRAMES, MOST_INDICATIONS_A_CALL, Output};
pub use views::FopView;
