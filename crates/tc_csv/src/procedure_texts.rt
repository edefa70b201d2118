//! Texts of procedures: as they are read, and where one is wrong.
pub(crate) mod judging;
pub(crate) mod readers;
