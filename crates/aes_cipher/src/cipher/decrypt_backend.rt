//! Backends that decrypt, and closures that work with one.

ghost use Rattle.std.specs.Prelude.{◌≡◌, ℕ, List, length};
ghost use Rattle.aes_planes.specs.Each.{Each};
ghost use Rattle.aes_planes.specs.Fips197 as fips;

use super::batches::ParBlocksSizeUser;
use super::round_keys::RoundKeysUser;
use super::sizes::Block;

/// Decrypts single blocks, and batches of them, under round keys that it borrows.
pub trait BlockCipherDecBackend: ParBlocksSizeUser + RoundKeysUser {
    /// Decrypts the block in place under the value's round keys (InvCipher, FIPS 197, 5.3).
    fn decrypt_block(&self, block: &mut Block)
        ensures { block.new ≡ fips.inv_cipher_with (Self.round_keys self.now) block.old };

    /// Decrypts each block of one batch in place under the value's round keys (InvCipher, FIPS 197,
    /// 5.3).
    fn decrypt_par_blocks(&self, blocks: &mut [Block])
        requires one_batch { length blocks.old ≡ Self.PAR_BLOCKS }
        ensures { Each (fips.inv_cipher_with (Self.round_keys self.now)) blocks.old blocks.new };
}

/// A caller's own work with a backend of any type and any batch size.
pub trait BlockCipherDecClosure {
    /// What the work does: a relation between the value before, the backend's round keys and the
    /// value after.
    ghost did: { Self → List (List ℕ) → Self → Type 0 };

    /// Does the closure's work with a backend.
    fn call<B: BlockCipherDecBackend>(&mut self, backend: &B)
        ensures { did self.old (B.round_keys backend.now) self.new };
}
