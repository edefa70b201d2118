//! The history: the places of requests, and the moves between them.
pub mod causes;
pub mod lawful;
pub mod moves;
pub mod places;
