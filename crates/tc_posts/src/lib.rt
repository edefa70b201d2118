//! The client of a desk over HTTP: the lines of a script that are sent, the requests that they are posted in, what the responses say, and what is
//! shown of it.
#![tactic(auto)]

mod completing;
mod numbered;
mod posting;
mod sending;
mod told;
mod used;

pub use completing::left_out_note;
pub use numbered::{NumberedLine, numbered_lines};
pub use posting::{empty_request, moves_request, places_request, post_request};
pub use sending::{Client, send_script};
pub use told::{Told, Untellable, read_told};
pub use used::used_note;
