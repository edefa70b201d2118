//! The acts, a file each: its tests in order, the room that it takes, the one event that may be refused, and then what cannot
//! fail.
pub mod clcw;
pub mod clock;
pub mod direct;
pub mod down;
pub mod load;
pub mod lose;
pub mod on_book;
pub mod release;
pub mod step;
pub mod tick;
pub mod up;
pub mod work;
