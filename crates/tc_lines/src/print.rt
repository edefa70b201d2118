//! Lines that are printed.
pub mod link_texts;
pub mod list_texts;
pub mod procedure_texts;
pub mod request_texts;
pub mod step_texts;
pub mod texts;
pub mod waiting_texts;
