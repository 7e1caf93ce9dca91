//! CMAC (SP 800-38B) over any block cipher that encrypts: a tag that shows whether a message was
//! changed. The chain of blocks that makes the tag is public too.
#![tactic(auto)]

mod chain_in_pieces;
mod chaining;
mod errors;
pub mod examples;
mod pieces;
mod subkeys;
mod tags;

pub use chain_in_pieces::ChainInPieces;
pub use chaining::{begins_with, chain};
pub use errors::{NotAccepted, OutOfTurn};
pub use pieces::Message;
pub use tags::{is_tag, is_tag_start, tag};
