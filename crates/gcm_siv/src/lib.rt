//! AES-GCM-SIV (RFC 8452) over any cipher that is made from a key. It encrypts messages, and shows
//! whether a message was changed. A repeated nonce doesn't break it.
#![tactic(auto)]

mod counters;
mod course;
mod errors;
pub mod examples;
mod hash;
mod keys;
mod laws;
mod lengths;
mod message;
mod message_key;
mod mode;

pub use counters::add_keystream;
pub use course::{open_message, seal_message};
pub use errors::{Refused, TooLong};
pub use hash::PolyvalRoom;
pub use laws::text_twice;
pub use lengths::LONGEST;
pub use message_key::MessageKey;
pub use mode::GcmSiv;
