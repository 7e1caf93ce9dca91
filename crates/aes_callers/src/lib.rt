//! Proved callers: programs as users write them over the types of `aes`, `aes_hybrid` and
//! `aes_rounds`, and modes over any cipher. `aes_callers_tests` has their tests.
#![tactic(auto)]

pub mod by_backend;
pub mod by_key;
pub mod callers;
pub mod chaining_value;
pub mod chains;
pub mod closures;
pub mod counter_mode;
pub mod generic;
pub mod layers;
