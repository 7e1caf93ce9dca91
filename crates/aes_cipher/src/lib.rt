//! The traits of block ciphers, words that are wiped, and the one type that nine names stand for.
#![tactic(auto)]

pub mod aes;
pub mod blocks;
pub mod bytes;
pub mod cipher;
pub mod examples;
pub mod not_clone;
pub mod zeroize;
