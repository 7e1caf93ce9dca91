//! What the block ciphers of this library have in common.

mod algorithm_name;
mod backend_in;
mod batches;
mod decrypt;
mod decrypt_backend;
mod directions;
mod encrypt;
mod encrypt_backend;
mod errors;
mod init;
mod references;
mod round_keys;
mod sizes;

pub use algorithm_name::AlgorithmName;
pub use backend_in::{BackendIn, process_by_backend};
pub use batches::{
    BatchOfEight, BatchOfFour, BatchOfSixteen, BatchSize, BatchSizeUser, ParBlocksSizeUser,
};
pub use decrypt::BlockCipherDecrypt;
pub use decrypt_backend::{BlockCipherDecBackend, BlockCipherDecClosure};
pub use directions::{CipherIn, Decrypt, Direction, Encrypt};
pub use encrypt::BlockCipherEncrypt;
pub use encrypt_backend::{BlockCipherEncBackend, BlockCipherEncClosure};
pub use errors::{InvalidLength, NotEqualError};
pub use init::KeyInit;
pub use round_keys::RoundKeysUser;
pub use sizes::{Block, BlockSizeUser, KeySizeUser};
