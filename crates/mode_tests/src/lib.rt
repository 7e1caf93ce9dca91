//! Tests of the modes `aes_ctr`, `gcm`, `gcm_siv`, `cmac`, `ccm`, `cbc` and `key_wrap`, and of the
//! generator `ctr_drbg`.
#![tactic(auto)]

#[cfg(test)]
mod tests;
