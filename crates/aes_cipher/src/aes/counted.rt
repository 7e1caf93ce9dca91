//! Calls that count S-box layers, for forms of round keys that run them one after another.

ghost use Rattle.std.specs.Prelude.{◌≡◌, ◌+◌, ℕ, length};
ghost use Rattle.aes_planes.specs.Each.{Each};
ghost use Rattle.aes_planes.specs.Fips197 as fips;

use super::AesCipher;
use super::direction_sets::Allows;
use super::key_sizes::KeySize;
use super::stored_keys::StoredKeys;
use crate::cipher::{Block, Decrypt, Encrypt};
use aes_planes::soft::sbox::Layers;
use std::marker::PhantomData;

/// Stored round keys whose calls count S-box layers.
pub trait CountsLayers: StoredKeys {
    /// How many S-box layers a key's expansion runs.
    ghost SCHEDULE_LAYERS: { ℕ };

    /// How many S-box layers run for that many blocks of a slice.
    ghost layers_for: { ℕ → ℕ };

    /// Writes the round keys of a key to wiped room, and counts the S-box layers.
    fn expand_counted(&mut self, new_key: &[u8], layers: &mut Layers)
        requires wiped { Self.IsWiped self.old }
        requires sized { length new_key.now ≡ Self.Size.SIZE }
        ensures keyed { Self.AreKeyed self.new }
        ensures same { Self.key self.new ≡ new_key.now }
        ensures layers { layers.new ≡ layers.old + SCHEDULE_LAYERS };

    /// Encrypts each block in place, and counts the S-box layers.
    fn encrypt_blocks_counted(&self, blocks: &mut [Block], layers: &mut Layers)
        requires keyed { Self.AreKeyed self.now }
        ensures blocks { Each (fips.cipher (Self.key self.now)) blocks.old blocks.new }
        ensures layers { layers.new ≡ layers.old + layers_for (length blocks.old) };

    /// Decrypts each block in place, and counts the S-box layers.
    fn decrypt_blocks_counted(&self, blocks: &mut [Block], layers: &mut Layers)
        requires keyed { Self.AreKeyed self.now }
        ensures blocks { Each (fips.inv_cipher (Self.key self.now)) blocks.old blocks.new }
        ensures layers { layers.new ≡ layers.old + layers_for (length blocks.old) };
}

impl<S: CountsLayers, D> AesCipher<S, D> {
    /// Makes a value from a key, and counts the S-box layers of KeyExpansion (FIPS 197, 5.2): 10, 8
    /// or 13 with a key of 16, 24 or 32 bytes.
    pub fn new_counted(key: &<S::Size as KeySize>::Key, layers: &mut Layers) -> AesCipher<S, D>
        ensures made { result ≡ S.Size.bytes key.now }
        ensures layers { layers.new ≡ layers.old + S.SCHEDULE_LAYERS }
    {
        let mut cipher = AesCipher {
            keys: S::zeroed(),
            directions: PhantomData,
        };
        let key = <S::Size as KeySize>::as_slice(key);
        cipher.keys.expand_counted(key, layers);
        cipher
    }
}

impl<S: CountsLayers, D: Allows<Encrypt>> AesCipher<S, D> {
    /// Encrypts each block in place (Cipher, FIPS 197, 5.1), and counts the S-box layers. Each
    /// whole batch runs as many layers as the cipher has rounds, and so does each block after the
    /// batches.
    #[inline(always)]
    pub fn encrypt_blocks_counted(&self, blocks: &mut [Block], layers: &mut Layers)
        ensures blocks { Each (fips.cipher self.now) blocks.old blocks.new }
        ensures layers { layers.new ≡ layers.old + S.layers_for (length blocks.old) }
    {
        self.keys.encrypt_blocks_counted(blocks, layers);
    }
}

impl<S: CountsLayers, D: Allows<Decrypt>> AesCipher<S, D> {
    /// Decrypts each block in place (InvCipher, FIPS 197, 5.3), and counts the S-box layers. Each
    /// whole batch runs as many layers as the cipher has rounds, and so does each block after the
    /// batches.
    #[inline(always)]
    pub fn decrypt_blocks_counted(&self, blocks: &mut [Block], layers: &mut Layers)
        ensures blocks { Each (fips.inv_cipher self.now) blocks.old blocks.new }
        ensures layers { layers.new ≡ layers.old + S.layers_for (length blocks.old) }
    {
        self.keys.decrypt_blocks_counted(blocks, layers);
    }
}
