//! Desk and tables as one: each act is carried out on the desk's book and written to the tables of that book, and each
//! line of a script is answered as the desk machine answers it.
#![tactic(auto)]

mod answers;
mod callers;
mod calls;
mod counts;
mod desks;
mod loadings;
mod opening;
mod replies;
mod rooms;
mod urgents;
mod waited;
mod writes;

pub use answers::{Answer, answer_line, answer_load, answer_places, answer_query, refusal_answer};
pub use callers::Caller;
pub use calls::Called;
pub use desks::LinkDesk;
pub use opening::OpenedRoom;
pub use replies::opening_reply;
pub use rooms::Room;
