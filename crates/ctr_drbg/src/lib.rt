//! CTR_DRBG (SP 800-90A Rev. 1, 10.2.1) over any block cipher with keys of 32 bytes. It makes
//! random numbers from a seed.
#![tactic(auto)]

mod errors;
pub mod examples;
mod generator;
mod output;
mod seeds;

pub use errors::{InvalidSeed, NotGenerated};
pub use generator::{CtrDrbg, LONGEST_REQUEST, RESEED_INTERVAL};
pub use seeds::SEED_LENGTH;
