//! Uses each public item of the library by its path and signature, and implements each trait. If a
//! name or a signature changes, this crate doesn't compile any more. Nothing calls it.
#![tactic(auto)]

pub mod backends;
pub mod cipher_traits;
pub mod counter_mode;
pub mod errors;
pub mod own_backend;
pub mod own_cipher;
pub mod own_closures;
pub mod own_word;
pub mod planes;
pub mod program;
pub mod rounds;
pub mod schedules;
pub mod single_rounds;
pub mod standard;
pub mod types;
pub mod wipes;
pub mod words;
