//! What no clause says: that the calls below the types answer, with the standards' values, on every
//! word.

mod block_calls;
mod bytes;
mod cipher;
mod planes;
mod soft;
mod words;
mod zeroize;
