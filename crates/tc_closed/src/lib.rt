//! What the program reads and writes where no desk is open: the text of a script, the check of a file, the report and the wall of tables, and the
//! faults that end each. A reader, a writer, a store and a source of files are whatever the caller has.
#![tactic(auto)]

mod checking;
mod paths;
mod reports;
mod scripts;
mod shift_pages;
mod wall_pages;
mod walls;
mod watching;
mod writing;

pub use checking::{write_check, write_script_check};
pub use paths::{MOST_FILE_BYTES, PathFault, Paths};
pub use reports::closed_report;
pub use scripts::{LARGEST_SCRIPT, MOST_READS, ScriptFault, read_script};
pub use wall_pages::records_of;
pub use walls::write_wall;
pub use watching::{Answered, Watch};
pub use writing::{put, status_of};
