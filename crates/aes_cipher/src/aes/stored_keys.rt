//! The forms in which round keys are stored, and what is done under them.

ghost use Rattle.std.specs.Prelude.{◌≡◌, ℕ, List, length};
ghost use Rattle.aes_planes.specs.Each.{Each};
ghost use Rattle.aes_planes.specs.Fips197 as fips;

use super::key_sizes::KeySize;
use crate::cipher::{
    Block, BlockCipherDecClosure, BlockCipherEncClosure, Decrypt, Direction, Encrypt,
};

/// The stored round keys of a key, in some form. Contracts see the key that they are read as.
///
/// An implementation has to wipe: its drop has to overwrite the round keys. No clause requires
/// this, but `AesCipher` has the mark `ZeroizeOnDrop` over every form.
pub trait StoredKeys: Drop {
    /// The size of the key.
    type Size: KeySize;

    /// The key that the round keys are read as.
    ghost key: { Self → List ℕ };

    /// The round keys are those of the key that they are read as.
    ghost AreKeyed: { Self → Type 0 };

    /// Nothing of a key is left.
    ghost IsWiped: { Self → Type 0 };

    /// Returns room for round keys.
    fn zeroed() -> Self
        ensures { IsWiped result };

    /// Overwrites everything with zeros, in place.
    fn wipe(&mut self)
        ensures { IsWiped self.new };

    /// Writes the round keys of a key to wiped room: KeyExpansion (FIPS 197, 5.2).
    fn expand_key(&mut self, new_key: &[u8])
        requires wiped { IsWiped self.old }
        requires sized { length new_key.now ≡ Self.Size.SIZE }
        ensures keyed { AreKeyed self.new }
        ensures same { key self.new ≡ new_key.now };

    /// Returns a copy of the round keys.
    fn copy(&self) -> Self
        requires keyed { AreKeyed self.now }
        ensures keyed { AreKeyed result }
        ensures same { key result ≡ key self.now };

    /// No effect; states that the key has as many bytes as its size says.
    fn key_has_its_size(&self)
        requires keyed { AreKeyed self.now }
        ensures sized { length (key self.now) ≡ Self.Size.SIZE }
        ensures bytes { fips.IsBytes (key self.now) };
}

/// Stored round keys under which blocks are processed in the direction D.
pub trait Processes<D: Direction>: StoredKeys {
    /// Processes the block in place.
    fn process_one(&self, block: &mut Block)
        requires keyed { Self.AreKeyed self.now }
        ensures { block.new ≡ D.processed (fips.key_expansion (Self.key self.now)) block.old };

    /// Processes each block of a slice in place.
    fn process_slice(&self, blocks: &mut [Block])
        requires keyed { Self.AreKeyed self.now }
        ensures { Each (D.processed (fips.key_expansion (Self.key self.now)))
            blocks.old blocks.new };
}

/// Stored round keys under which blocks are encrypted.
pub trait Encrypts: Processes<Encrypt> {
    /// Calls the closure once, with a backend of the round keys that suits this number of blocks.
    /// The number affects speed and nothing else.
    fn encrypt_with_backend_for<F: BlockCipherEncClosure>(&self, blocks: usize, f: &mut F)
        requires keyed { Self.AreKeyed self.now }
        ensures { F.did f.old (fips.key_expansion (Self.key self.now)) f.new };
}

/// Stored round keys under which blocks are decrypted.
pub trait Decrypts: Processes<Decrypt> {
    /// Calls the closure once, with a backend of the round keys that suits this number of blocks.
    /// The number affects speed and nothing else.
    fn decrypt_with_backend_for<F: BlockCipherDecClosure>(&self, blocks: usize, f: &mut F)
        requires keyed { Self.AreKeyed self.now }
        ensures { F.did f.old (fips.key_expansion (Self.key self.now)) f.new };
}

/// Stored round keys that are made from those of S, which has the same key.
pub trait MadeFrom<S: StoredKeys>: StoredKeys {
    /// Returns the round keys, in this form, of the key of `keys`.
    fn made_from(keys: &S) -> Self
        requires keyed { S.AreKeyed keys.now }
        ensures keyed { Self.AreKeyed result }
        ensures same { Self.key result ≡ S.key keys.now };
}
