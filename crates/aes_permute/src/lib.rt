//! AES by vector permutations (FIPS 197). A block is one vector, and the S-box is computed by
//! tables of sixteen bytes, which are vectors too.
#![tactic(auto)]

pub mod blocks;
pub mod examples;
pub mod halves;
pub mod lane_keys;
pub mod lane_room;
pub mod lane_rounds;
pub mod lanes;
pub mod rounds;
pub mod sbox;
pub mod tables;
