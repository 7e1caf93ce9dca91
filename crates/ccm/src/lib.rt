//! CCM (SP 800-38C; RFC 3610) over any block cipher that encrypts. It encrypts messages, and shows
//! whether a message was changed.
#![tactic(auto)]

mod errors;
pub mod examples;
mod formatting;
mod laws;
mod message;
mod mode;

pub use errors::{InvalidMessage, NotDecrypted};
pub use laws::text_twice;
pub use mode::{decrypt, encrypt};
