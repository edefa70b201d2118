//! What is open at the desk, most urgent first: requests in doubt, those that failed, what waits for
//! a person, what flies, and what is locked.
//!
//! A line is made of a book (`Records`), the number of moves at the opening, and the requests that
//! the mirror has on board.
#![tactic(auto)]

mod folds;
mod inserts;
mod judging;
mod kinds;
pub mod laws;
mod lines;
mod locks;
mod moves;
mod pages;
mod texts;
mod urgents;

pub use folds::{MOST_FOLDED, folded};
pub use kinds::UrgentKind;
pub use lines::{OnBoard, UrgentLine, service_of, subtype_of};
pub use pages::{PAGE, count_of, has_more, page};
pub use texts::{head_text, urgent_text};
pub use urgents::{urgent, urgent_folded};
