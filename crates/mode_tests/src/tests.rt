//! What no clause says: that the modes answer, with the standards' values, over ciphers of each
//! size of keys.

mod cases;
mod ccm_messages;
mod chains;
mod counter_mode;
mod generators;
mod keys;
mod long;
mod pieces;
mod siv;
mod tags;
mod whole;
