//! Key wrap without and with padding (KW and KWP, SP 800-38F, 6.2 and 6.3; RFC 3394 and RFC 5649)
//! over any block cipher. It encrypts keys under a key, from one buffer to another, and shows
//! whether a wrapped key was changed.
#![tactic(auto)]

mod errors;
pub mod examples;
pub mod laws;
mod padded;
mod steps;
mod wrapping;

pub use errors::{InvalidCount, NotUnwrapped};
pub use padded::{unwrap_padded, wrap_padded};
pub use steps::Semiblock;
pub use wrapping::{unwrap, wrap};
