//! Tests of `aes_planes`, `aes_cipher` and `aes_soft`: of traits, wipes, bit planes and schedules.
#![tactic(auto)]

#[cfg(test)]
mod tests;
