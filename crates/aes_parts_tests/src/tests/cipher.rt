//! What no clause says: that the calls answer, through their bounds.

pub mod calls;
mod closures;
mod keys;
mod one_round;
