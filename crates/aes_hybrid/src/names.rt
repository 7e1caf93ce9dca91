//! The names of the nine types, on words of 128 bits. A type of another width is named by its form:
//! `BothWaysKeys<K, W>`, or `EncryptionKeys<K, W>`.

use crate::stored_keys::{BothWaysKeys, EncryptionKeys};
use aes_cipher::aes::{AesCipher, Bits128, Bits192, Bits256, BothWays};
use aes_cipher::cipher::{Decrypt, Encrypt};

/// AES with a key of 16 bytes, for encryption and decryption.
pub type Aes128 = AesCipher<BothWaysKeys<Bits128>, BothWays>;

/// AES with a key of 16 bytes, for encryption only.
pub type Aes128Enc = AesCipher<EncryptionKeys<Bits128>, Encrypt>;

/// AES with a key of 16 bytes, for decryption only. It also keeps the round keys of Cipher, of
/// which planes are made.
pub type Aes128Dec = AesCipher<BothWaysKeys<Bits128>, Decrypt>;

/// AES with a key of 24 bytes, for encryption and decryption.
pub type Aes192 = AesCipher<BothWaysKeys<Bits192>, BothWays>;

/// AES with a key of 24 bytes, for encryption only.
pub type Aes192Enc = AesCipher<EncryptionKeys<Bits192>, Encrypt>;

/// AES with a key of 24 bytes, for decryption only. It also keeps the round keys of Cipher, of
/// which planes are made.
pub type Aes192Dec = AesCipher<BothWaysKeys<Bits192>, Decrypt>;

/// AES with a key of 32 bytes, for encryption and decryption.
pub type Aes256 = AesCipher<BothWaysKeys<Bits256>, BothWays>;

/// AES with a key of 32 bytes, for encryption only.
pub type Aes256Enc = AesCipher<EncryptionKeys<Bits256>, Encrypt>;

/// AES with a key of 32 bytes, for decryption only. It also keeps the round keys of Cipher, of
/// which planes are made.
pub type Aes256Dec = AesCipher<BothWaysKeys<Bits256>, Decrypt>;
