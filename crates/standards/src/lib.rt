//! Keys, blocks and answers that the standards print or OpenSSL gives, and blocks that differ, for
//! the tests of all crates.
#![tactic(auto)]

pub mod blocks;
pub mod bytes;
pub mod chains;
pub mod counter;
pub mod expansions;
pub mod keys;
pub mod rounds;
pub mod single_blocks;
