//! Tests of the engine of the program: lines that are answered or at fault, failures, and long
//! runs.
#![tactic(auto)]

#[cfg(test)]
mod tests;
