//! The command line of `tcdesk`: what its words ask for, as `clap` reads them.
#![tactic(auto)]

mod arguments;
mod carrying;
mod commands;
mod given;
mod layers;
mod lines;
mod reading;

pub use carrying::{Program, carry_out};
pub use layers::Layer;
pub use lines::{CommandLine, Numbers, Service, Telling, UsageFault};
pub use reading::read_words;
