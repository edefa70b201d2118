//! The wall: one page of HTML of what a desk holds, for a screen on the wall and for paper.
//!
//! The page is a function of what it shows (`Wall`). It is made of parts: fixed texts, numbers, words of the desk, and texts that persons typed,
//! which are escaped. Every function takes the memory of its text from the allocator that it is given, and fails where that is refused.
#![tactic(auto)]

mod axes;
mod bars;
mod bounds;
mod escapes;
mod fixed;
mod headings;
mod kinds;
pub mod laws;
mod lines;
mod link_rows;
mod links;
mod move_rows;
mod pages;
mod ranges;
mod schedules;
mod signs;
mod tiles;
mod times;
mod urgent_rows;
mod wait_rows;
mod walls;
mod way_rows;
mod ways;

pub use fixed::POLICY;
pub use links::{FarmLine, FarmWord, FopLine, FopWord, LinkLines};
pub use pages::{MOST_BYTES, wall_text};
pub use walls::{
    KINDS, Live, MOST_LINES, MOST_MOVES, MOST_OPEN, MOST_SHOWN_ACTIVITIES, MOST_STAGES, Opening,
    ShownSchedule, UrgentRow, Wall, Way,
};
