//! Blocks under stored round keys: slices of them, single ones, and backends.

pub(crate) mod backend;
mod filled_up;
mod slices;

pub use backend::{Backend, decrypt_with_backend, encrypt_with_backend};
pub use filled_up::process_filled_up;
pub use slices::{
    process_batch_under, process_batches_under, process_block_under, process_blocks_under,
};
pub(crate) use slices::{batch_of, put_batch};

/// The word of a batch: eight of them hold as many blocks as are processed at once.
pub type BatchWord = u128;
