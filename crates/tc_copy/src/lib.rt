//! A copy of a desk's file while the desk runs: whether what was read of its two files is what a crash would have left.
//!
//! The file is read first and its log behind it, each part at its own time, while the desk goes on. Before and behind both the marks of the files are
//! read; where these are of one state, the log was not emptied meanwhile, and what an opening recovers from the copy is what it would recover
//! from the desk's own files, had the desk crashed when its log was read.
#![tactic(auto)]

mod copying;
pub mod laws;
mod marks;
mod pairs;

pub use copying::{DeskFiles, MOST_COPIES, Reading, copy_files};
pub use marks::{FileStamp, LogMark, Marks, is_one_state, is_same_file};
pub use pairs::{Unpaired, why_unpaired};
