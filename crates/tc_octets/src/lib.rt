//! The octets of a link over the air: codes, telecommand and telemetry transfer frames, CLTUs, and the profile that says how a link is set.
//!
//! Everything here is a function of values. Nothing reads a socket or a clock.
#![tactic(auto)]

mod candidates;
mod cltu_readers;
mod cltus;
mod codeblocks;
mod crcs;
mod keys;
mod markers;
mod profile_lines;
mod profile_texts;
mod profile_values;
mod profiles;
mod randomizers;
mod statements;
mod tc_frames;
mod tc_readers;
mod tm_frames;

pub use candidates::{Candidate, MOST_INFORMATION};
pub use cltu_readers::CltuReader;
pub use cltus::cltu;
pub use codeblocks::{CODEBLOCK, INFORMATION, Mode, error_control, sent};
pub use crcs::crc;
pub use keys::{KEYS, Key};
pub use markers::{MARKER, MarkerReader};
pub use profile_texts::{LONGEST_PROFILE, ProfileFault, ProfileWord, read_profile};
pub use profiles::{Map, Profile, TcChannel, TmChannel};
pub use randomizers::randomize;
pub use tc_frames::{MOST_TC_FRAME, TcFault, TcFrame, tc_frame};
pub use tc_readers::read_tc_frame;
pub use tm_frames::{TmFault, TmFrame, read_tm_frame, tm_frame, word_of};
