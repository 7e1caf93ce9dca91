//! Tests of the proved callers: blocks, closures, chains and counter mode.
#![tactic(auto)]

#[cfg(test)]
mod tests;
