//! A cipher that a user writes.

ghost use Rattle.std.specs.Prelude.{refl};
ghost use Rattle.aes_planes.specs.Fips197 as fips;
ghost use Rattle.aes_planes.proofs.Standard.CipherLaws.{two_expanded};

use crate::own_backend::OwnBackend;
use crate::own_closures::{decrypt_each, encrypt_each};
use aes_cipher::cipher::{
    AlgorithmName, Block, BlockCipherDecBackend, BlockCipherDecClosure, BlockCipherDecrypt,
    BlockCipherEncBackend, BlockCipherEncClosure, BlockCipherEncrypt, InvalidLength, KeyInit,
    KeySizeUser, RoundKeysUser,
};
use aes_cipher::zeroize::ZeroizeOnDrop;
use aes_planes::laws;
use std::fmt;

/// AES-128 that expands its key at each call.
#[derive(Drop)]
pub struct OwnCipher {
    key: [u8; 16],
}

impl KeySizeUser for OwnCipher {
    type Key = [u8; 16];

    ghost KEY_SIZE = { 16 };

    ghost key_bytes = { λ key. key };

    const KEY_SIZE: usize = 16;
}

impl RoundKeysUser for OwnCipher {
    ghost round_keys = { λ cipher. fips.key_expansion cipher.key };

    fn round_keys_are_blocks(&self) {
        OwnBackend::of_key(&self.key).round_keys_are_blocks();
    }

    ghost two_round_keys = { λ cipher. two_expanded cipher.key };
}

impl KeyInit for OwnCipher {
    ghost own_key = { λ cipher. cipher.key };

    fn new(key: &[u8; 16]) -> OwnCipher {
        OwnCipher { key: *key }
    }

    fn new_from_slice(key: &[u8]) -> Result<OwnCipher, InvalidLength> {
        match <[u8; 16]>::try_from(key) {
            Ok(key) => Ok(OwnCipher::new(&key)),
            Err(_) => Err(InvalidLength),
        }
    }

    fn key_has_its_size(&self) {
        laws::block_has_16_bytes(self.key);
    }

    ghost expanded = { λ cipher. refl };
}

impl AlgorithmName for OwnCipher {
    fn write_alg_name<W: fmt::Write>(f: &mut fmt::Formatter<W>) -> fmt::Result {
        f.write_str("OwnCipher")
    }
}

impl ZeroizeOnDrop for OwnCipher {}

impl BlockCipherEncrypt for OwnCipher {
    fn encrypt_with_backend<F: BlockCipherEncClosure>(&self, f: &mut F) {
        f.call(&OwnBackend::of_key(&self.key));
    }

    fn encrypt_block(&self, block: &mut Block) {
        OwnBackend::of_key(&self.key).encrypt_block(block);
    }

    fn encrypt_blocks(&self, blocks: &mut [Block]) {
        encrypt_each(&OwnBackend::of_key(&self.key), blocks);
    }
}

impl BlockCipherDecrypt for OwnCipher {
    fn decrypt_with_backend<F: BlockCipherDecClosure>(&self, f: &mut F) {
        f.call(&OwnBackend::of_key(&self.key));
    }

    fn decrypt_block(&self, block: &mut Block) {
        OwnBackend::of_key(&self.key).decrypt_block(block);
    }

    fn decrypt_blocks(&self, blocks: &mut [Block]) {
        decrypt_each(&OwnBackend::of_key(&self.key), blocks);
    }
}
