//! The rows of the desk's tables.
pub mod cargo;
pub mod images;
pub mod rows;
