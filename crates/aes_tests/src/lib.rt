//! Tests of the types of `aes`, `aes_hybrid` and `aes_rounds`, their backends, and the single
//! rounds of `aes`.
#![tactic(auto)]

#[cfg(test)]
mod tests;
