//! AES in both forms under one list of stored round keys (FIPS 197): few blocks by vector
//! permutations, many on bit planes. Only the number of blocks decides, and it is no secret.
#![tactic(auto)]

mod batches;
pub mod borrowed_cipher;
mod closures;
pub mod examples;
pub mod kept_key;
mod names;
mod plane_keys;
mod stored_keys;
pub mod widths;

pub use names::{
    Aes128, Aes128Dec, Aes128Enc, Aes192, Aes192Dec, Aes192Enc, Aes256, Aes256Dec, Aes256Enc,
};
pub use plane_keys::store_planes;
pub use stored_keys::{BothWaysKeys, EncryptionKeys};
