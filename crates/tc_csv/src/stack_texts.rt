//! Texts of stacks: as they are read, and where one is wrong.
pub(crate) mod commands;
pub(crate) mod inserts;
pub(crate) mod judging;
pub(crate) mod readers;
pub(crate) mod stack_rows;
