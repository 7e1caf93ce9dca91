//! The names of the nine types: `Aes128`, `Aes128Enc`, `Aes128Dec` and so on.

use crate::fixsliced::FixslicedAes;
use aes_cipher::aes::{Bits128, Bits192, Bits256, BothWays};
use aes_cipher::cipher::{Decrypt, Encrypt};

/// AES with a key of 16 bytes, for encryption and decryption.
pub type Aes128 = FixslicedAes<Bits128, BothWays>;

/// AES with a key of 16 bytes, for encryption only.
pub type Aes128Enc = FixslicedAes<Bits128, Encrypt>;

/// AES with a key of 16 bytes, for decryption only.
pub type Aes128Dec = FixslicedAes<Bits128, Decrypt>;

/// AES with a key of 24 bytes, for encryption and decryption.
pub type Aes192 = FixslicedAes<Bits192, BothWays>;

/// AES with a key of 24 bytes, for encryption only.
pub type Aes192Enc = FixslicedAes<Bits192, Encrypt>;

/// AES with a key of 24 bytes, for decryption only.
pub type Aes192Dec = FixslicedAes<Bits192, Decrypt>;

/// AES with a key of 32 bytes, for encryption and decryption.
pub type Aes256 = FixslicedAes<Bits256, BothWays>;

/// AES with a key of 32 bytes, for encryption only.
pub type Aes256Enc = FixslicedAes<Bits256, Encrypt>;

/// AES with a key of 32 bytes, for decryption only.
pub type Aes256Dec = FixslicedAes<Bits256, Decrypt>;
