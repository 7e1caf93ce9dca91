//! Counter mode over any block cipher (SP 800-38A, 6.5), with the whole block as the counter, and
//! the keystream of other counter blocks.
#![tactic(auto)]

mod add_blocks;
mod add_in_batches;
mod counter_blocks;
mod errors;
pub mod examples;
mod keystream;
mod laws;
mod mode;

pub use add_in_batches::{add_keystream, add_stream};
pub use counter_blocks::{CounterBlocks, WholeBlock};
pub use errors::KeystreamEnd;
pub use laws::{stream_cut, stream_twice};
pub use mode::Ctr128BE;
