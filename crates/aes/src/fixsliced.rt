//! The form of the nine types: round keys in the full layout of bit planes, on words of one block.

ghost use Rattle.std.specs.Prelude.{◌≡◌, ◌+◌, ◌/◌, replicate};
ghost use Rattle.aes_planes.specs.Expansion.{substitutions};
ghost use Rattle.aes_planes.specs.Words.{word_bits};
ghost use Rattle.aes_soft.specs.Batches.{layers_for};
ghost use Rattle.aes_soft.specs.Stored.{key_of_planes, stored_words, IsFullSchedule};

use aes_cipher::aes;
use aes_cipher::aes::{CountsLayers, Decrypts, Encrypts, KeySize, MadeFrom, Processes, StoredKeys};
use aes_cipher::cipher::{BlockCipherDecClosure, BlockCipherEncClosure, Decrypt, Encrypt};
use aes_cipher::not_clone::NotClone;
use aes_cipher::zeroize::Wiped;
use aes_planes::soft::sbox::Layers;
use aes_planes::soft::word::Block;
use aes_soft::soft::PlaneCipher;
use aes_soft::soft::blocks::{
    decrypt_with_backend, encrypt_with_backend, process_block_under, process_blocks_under,
};
use aes_soft::soft::plane_room::{PlaneRoom, expand_in_room, keys_in_room, words_hold_a_key};
use std::marker::PhantomData;

/// AES with a key of the size K, in the directions D.
pub type FixslicedAes<K, D> = aes::AesCipher<Fixsliced<K>, D>;

/// Stored round keys of a key of the size K. They serve both directions.
pub struct Fixsliced<K: KeySize> {
    // The first words are the round keys, as they are stored. The others stay zero.
    room: Wiped<PlaneRoom<u16>>,
    size: PhantomData<K>,
}

impl<K: KeySize> Drop for Fixsliced<K> {
    #[inline(always)]
    fn drop(self) {
        let Fixsliced { room: _, size: _ } = self;
    }
}

impl<K: KeySize> NotClone for Fixsliced<K> {}

impl<K: KeySize> StoredKeys for Fixsliced<K> {
    type Size = K;

    ghost key = { λ stored. key_of_planes (word_bits 16) 1 (stored_words K.SIZE stored.room) };

    ghost AreKeyed = { λ stored. IsFullSchedule (word_bits 16) 1
        (stored_words K.SIZE stored.room) };

    ghost IsWiped = { λ stored. stored.room ≡ replicate 120 0 };

    #[inline(always)]
    fn zeroed() -> Fixsliced<K> {
        Fixsliced {
            room: Wiped::zeroed(),
            size: PhantomData,
        }
    }

    #[inline(always)]
    fn wipe(&mut self) {
        self.room.wipe();
    }

    #[inline(always)]
    fn expand_key(&mut self, new_key: &[u8]) {
        self.expand_counted(new_key, &mut Layers::new());
    }

    #[inline(always)]
    fn copy(&self) -> Fixsliced<K> {
        Fixsliced {
            room: self.room.copy(),
            size: PhantomData,
        }
    }

    fn key_has_its_size(&self) {
        words_hold_a_key(keys_in_room::<K>(&self.room));
    }
}

impl<K: KeySize> Fixsliced<K> {
    /// No effect; states that the room of a wiped value is all zeros.
    pub fn wiped_is_zero(&self)
        ensures { ⟦<Fixsliced<K> as StoredKeys>⟧.IsWiped self.now
            → self.now.room ≡ replicate 120 0 }
    {}
}

impl<K: KeySize> MadeFrom<Fixsliced<K>> for Fixsliced<K> {
    #[inline(always)]
    fn made_from(stored: &Fixsliced<K>) -> Fixsliced<K> {
        stored.copy()
    }
}

impl<K: KeySize, D: PlaneCipher> Processes<D> for Fixsliced<K> {
    fn process_one(&self, block: &mut Block) {
        process_block_under::<D>(keys_in_room::<K>(&self.room), block);
    }

    fn process_slice(&self, blocks: &mut [Block]) {
        process_blocks_under::<D>(keys_in_room::<K>(&self.room), blocks, &mut Layers::new());
    }
}

impl<K: KeySize> Encrypts for Fixsliced<K> {
    fn encrypt_with_backend_for<F: BlockCipherEncClosure>(&self, _blocks: usize, f: &mut F) {
        encrypt_with_backend(keys_in_room::<K>(&self.room), f);
    }
}

impl<K: KeySize> Decrypts for Fixsliced<K> {
    fn decrypt_with_backend_for<F: BlockCipherDecClosure>(&self, _blocks: usize, f: &mut F) {
        decrypt_with_backend(keys_in_room::<K>(&self.room), f);
    }
}

impl<K: KeySize> CountsLayers for Fixsliced<K> {
    ghost SCHEDULE_LAYERS = { substitutions K.SIZE };

    ghost layers_for = { λ count. layers_for (K.SIZE / 4 + 6) count };

    fn expand_counted(&mut self, new_key: &[u8], layers: &mut Layers) {
        expand_in_room::<K>(self.room.value_mut(), new_key, layers);
    }

    fn encrypt_blocks_counted(&self, blocks: &mut [Block], layers: &mut Layers) {
        process_blocks_under::<Encrypt>(keys_in_room::<K>(&self.room), blocks, layers);
    }

    fn decrypt_blocks_counted(&self, blocks: &mut [Block], layers: &mut Layers) {
        process_blocks_under::<Decrypt>(keys_in_room::<K>(&self.room), blocks, layers);
    }
}
