//! AES under any list of round keys that a caller gives, on the single rounds of `aes`.
#![tactic(auto)]

pub mod rounds;
