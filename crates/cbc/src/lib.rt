//! Cipher block chaining over any block cipher (SP 800-38A, 6.2), on whole blocks and from call to
//! call.
#![tactic(auto)]

mod chain;
mod decryption;
pub mod examples;
pub mod laws;

pub use chain::Cbc;
