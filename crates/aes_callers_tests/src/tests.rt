//! What no clause says: that the callers answer, with the standards' values, over every type.

mod by_key;
mod callers;
mod chains;
mod closures;
mod counter_mode;
