//! The engine of the program `aes-kat`: a reply to each line of an input.
#![tactic(auto)]

mod command_names;
mod digits;
pub mod examples;
mod faults;
mod keys;
mod laws;
mod operands;
mod parsing;
mod replies;
mod runs;
mod split;

pub use laws::{parts_are_unique, run_parts};
pub use replies::reply;
pub use runs::{Failed, run, run_in, status};
