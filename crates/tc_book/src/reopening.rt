//! What a book is made of again from the tables that were left, and which tables no desk could have written.
pub(crate) mod approvals;
pub(crate) mod complete;
pub(crate) mod history;
pub(crate) mod joining;
pub(crate) mod known;
pub(crate) mod parts;
pub(crate) mod persons;
pub(crate) mod rest;
pub(crate) mod stack_approvals;
pub(crate) mod steps;
pub(crate) mod tables;
