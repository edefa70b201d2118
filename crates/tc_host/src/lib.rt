//! What is asked of the machine, and told it, with no room at hand: files that are found, read, judged and copied, why one cannot be used, and what is said of
//! a run on the standard error.
#![tactic(auto)]

mod backups;
mod because;
mod copying;
mod files;
mod locks;
mod looking;
mod marking;
mod memory;
mod parts;
mod paths;
mod reporting;
mod standing;
mod telling;
mod unserved;

pub use backups::backup;
pub use because::{Because, Unusable};
pub use copying::{Beside, CopyFault};
pub use files::{of_tables, open_database, open_desk, open_script, text_at};
pub use looking::{
    why_no_desk, why_no_opening, why_no_script, why_uncopied, why_unread, why_unwritable,
};
pub use paths::{HostPaths, HostTexts, text_of};
pub use reporting::{print_report, print_wall};
pub use telling::{HostWatch, refusal_of, tell_opening};
pub use unserved::opening_fault;
