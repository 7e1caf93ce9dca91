//! The forms of the nine types: round keys of vector permutations, from which planes are made where
//! there are many blocks.

ghost use Rattle.std.specs.Prelude.{◌≡◌, replicate};
ghost use Rattle.aes_permute.specs.Keys.{key_of_lanes, stored_keys, AreInverse, IsCipherSchedule};

use crate::borrowed_cipher::BorrowedCipher;
use crate::widths::{Width, Width128};
use aes_cipher::aes::{Decrypts, Encrypts, KeySize, MadeFrom, Processes, StoredKeys};
use aes_cipher::cipher::{
    BlockCipherDecClosure, BlockCipherDecrypt, BlockCipherEncClosure, BlockCipherEncrypt, Decrypt,
    Encrypt,
};
use aes_cipher::not_clone::NotClone;
use aes_cipher::zeroize::Wiped;
use aes_permute::lane_room::{LaneRoom, expand_in_room, invert_in_room, keys_in_room};
use aes_planes::soft::word::Block;
use std::marker::PhantomData;
use std::slice;

/// The stored round keys of Cipher alone, for encryption.
pub struct EncryptionKeys<K: KeySize, W = Width128> {
    // The first blocks are the round keys, as they are stored. The others stay zero.
    room: Wiped<LaneRoom>,
    size: PhantomData<K>,
    width: PhantomData<W>,
}

impl<K: KeySize, W> Drop for EncryptionKeys<K, W> {
    #[inline(always)]
    fn drop(self) {
        let EncryptionKeys {
            room: _,
            size: _,
            width: _,
        } = self;
    }
}

impl<K: KeySize, W> NotClone for EncryptionKeys<K, W> {}

impl<K: KeySize, W> StoredKeys for EncryptionKeys<K, W> {
    type Size = K;

    ghost key = { λ s. key_of_lanes (stored_keys K.SIZE s.room) };

    ghost AreKeyed = { λ s. IsCipherSchedule (stored_keys K.SIZE s.room) };

    ghost IsWiped = { λ s. s.room ≡ replicate 15 (replicate 16 0) };

    #[inline(always)]
    fn zeroed() -> EncryptionKeys<K, W> {
        EncryptionKeys {
            room: Wiped::zeroed(),
            size: PhantomData,
            width: PhantomData,
        }
    }

    #[inline(always)]
    fn wipe(&mut self) {
        self.room.wipe();
    }

    #[inline(always)]
    fn expand_key(&mut self, new_key: &[u8]) {
        expand_in_room(self.room.value_mut(), new_key);
    }

    #[inline(always)]
    fn copy(&self) -> EncryptionKeys<K, W> {
        EncryptionKeys {
            room: self.room.copy(),
            size: PhantomData,
            width: PhantomData,
        }
    }

    fn key_has_its_size(&self) {
        keys_in_room(self.room.value(), K::SIZE);
    }
}

impl<K: KeySize, W> EncryptionKeys<K, W> {
    // Lends the round keys to encrypt.
    #[inline(always)]
    fn cipher(&self) -> BorrowedCipher<'_, Encrypt, W>
        requires { ⟦<EncryptionKeys<K, W> as StoredKeys>⟧.AreKeyed self.now }
        ensures { result ≡ ⟦<EncryptionKeys<K, W> as StoredKeys>⟧.key self.now }
    {
        BorrowedCipher::encrypting(keys_in_room(self.room.value(), K::SIZE))
    }
}

impl<K: KeySize, W: Width> Processes<Encrypt> for EncryptionKeys<K, W> {
    #[inline(always)]
    fn process_one(&self, block: &mut Block) {
        self.cipher().process_on_vectors(slice::from_mut(block));
    }

    fn process_slice(&self, blocks: &mut [Block]) {
        self.cipher().process_blocks(blocks);
    }
}

impl<K: KeySize, W: Width> Encrypts for EncryptionKeys<K, W> {
    fn encrypt_with_backend_for<F: BlockCipherEncClosure>(&self, blocks: usize, f: &mut F) {
        self.cipher().encrypt_with_backend_for(blocks, f);
    }
}

/// The stored round keys of Cipher, and those of EqInvCipher, for both directions.
pub struct BothWaysKeys<K: KeySize, W = Width128> {
    encrypting: EncryptionKeys<K, W>,
    decrypting: Wiped<LaneRoom>,
}

impl<K: KeySize, W> Drop for BothWaysKeys<K, W> {
    #[inline(always)]
    fn drop(self) {
        let BothWaysKeys {
            encrypting: _,
            decrypting: _,
        } = self;
    }
}

impl<K: KeySize, W> NotClone for BothWaysKeys<K, W> {}

impl<K: KeySize, W> StoredKeys for BothWaysKeys<K, W> {
    type Size = K;

    ghost key = { λ s. ⟦<EncryptionKeys<K, W> as StoredKeys>⟧.key s.encrypting };

    ghost AreKeyed = { λ s. ⟦<EncryptionKeys<K, W> as StoredKeys>⟧.AreKeyed s.encrypting
        × AreInverse (stored_keys K.SIZE s.decrypting) (stored_keys K.SIZE s.encrypting.room) };

    ghost IsWiped = { λ s. ⟦<EncryptionKeys<K, W> as StoredKeys>⟧.IsWiped s.encrypting
        × (s.decrypting ≡ replicate 15 (replicate 16 0)) };

    #[inline(always)]
    fn zeroed() -> BothWaysKeys<K, W> {
        BothWaysKeys {
            encrypting: EncryptionKeys::zeroed(),
            decrypting: Wiped::zeroed(),
        }
    }

    #[inline(always)]
    fn wipe(&mut self) {
        self.encrypting.wipe();
        self.decrypting.wipe();
    }

    #[inline(always)]
    fn expand_key(&mut self, new_key: &[u8]) {
        self.encrypting.expand_key(new_key);
        let room = self.encrypting.room.value();
        invert_in_room(self.decrypting.value_mut(), room, K::SIZE);
    }

    #[inline(always)]
    fn copy(&self) -> BothWaysKeys<K, W> {
        BothWaysKeys {
            encrypting: self.encrypting.copy(),
            decrypting: self.decrypting.copy(),
        }
    }

    fn key_has_its_size(&self) {
        self.encrypting.key_has_its_size();
    }
}

impl<K: KeySize, W> BothWaysKeys<K, W> {
    /// No effect; states that the room of a wiped value is all zeros, in both directions.
    pub fn wiped_is_zero(&self)
        ensures encrypting { ⟦<EncryptionKeys<K, W> as StoredKeys>⟧.IsWiped self.now.encrypting
            → self.now.encrypting.room ≡ replicate 15 (replicate 16 0) }
        ensures both { ⟦<BothWaysKeys<K, W> as StoredKeys>⟧.IsWiped self.now
            → (self.now.encrypting.room ≡ replicate 15 (replicate 16 0))
            × (self.now.decrypting ≡ replicate 15 (replicate 16 0)) }
    {}
}

impl<K: KeySize, W> MadeFrom<EncryptionKeys<K, W>> for BothWaysKeys<K, W> {
    #[inline(always)]
    fn made_from(stored: &EncryptionKeys<K, W>) -> BothWaysKeys<K, W> {
        let mut decrypting = Wiped::<LaneRoom>::zeroed();
        invert_in_room(decrypting.value_mut(), stored.room.value(), K::SIZE);
        BothWaysKeys {
            encrypting: stored.copy(),
            decrypting,
        }
    }
}

impl<K: KeySize, W: Width> Processes<Encrypt> for BothWaysKeys<K, W> {
    #[inline(always)]
    fn process_one(&self, block: &mut Block) {
        self.encrypting.process_one(block);
    }

    fn process_slice(&self, blocks: &mut [Block]) {
        self.encrypting.process_slice(blocks);
    }
}

impl<K: KeySize, W: Width> Encrypts for BothWaysKeys<K, W> {
    fn encrypt_with_backend_for<F: BlockCipherEncClosure>(&self, blocks: usize, f: &mut F) {
        self.encrypting.encrypt_with_backend_for(blocks, f);
    }
}

impl<K: KeySize, W> BothWaysKeys<K, W> {
    // Lends the round keys to decrypt.
    #[inline(always)]
    fn inverse_cipher(&self) -> BorrowedCipher<'_, Decrypt, W>
        requires { ⟦<BothWaysKeys<K, W> as StoredKeys>⟧.AreKeyed self.now }
        ensures { result ≡ ⟦<BothWaysKeys<K, W> as StoredKeys>⟧.key self.now }
    {
        let keys = keys_in_room(self.encrypting.room.value(), K::SIZE);
        BorrowedCipher::new(keys, keys_in_room(self.decrypting.value(), K::SIZE))
    }
}

impl<K: KeySize, W: Width> Processes<Decrypt> for BothWaysKeys<K, W> {
    #[inline(always)]
    fn process_one(&self, block: &mut Block) {
        self.inverse_cipher()
            .process_on_vectors(slice::from_mut(block));
    }

    fn process_slice(&self, blocks: &mut [Block]) {
        self.inverse_cipher().process_blocks(blocks);
    }
}

impl<K: KeySize, W: Width> Decrypts for BothWaysKeys<K, W> {
    fn decrypt_with_backend_for<F: BlockCipherDecClosure>(&self, blocks: usize, f: &mut F) {
        self.inverse_cipher().decrypt_with_backend_for(blocks, f);
    }
}
