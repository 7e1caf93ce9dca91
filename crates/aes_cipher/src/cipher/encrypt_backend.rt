//! Backends that encrypt, and closures that work with one.

ghost use Rattle.std.specs.Prelude.{◌≡◌, ℕ, ◌≤◌, List, length, take};
ghost use Rattle.aes_planes.specs.Each.{Each};
ghost use Rattle.aes_planes.specs.Fips197 as fips;
ghost use Rattle.aes_cipher.specs.Blocks.{EachOrUnchanged};

use super::batches::ParBlocksSizeUser;
use super::round_keys::RoundKeysUser;
use super::sizes::Block;

/// Encrypts single blocks, and batches of them, under round keys that it borrows.
pub trait BlockCipherEncBackend: ParBlocksSizeUser + RoundKeysUser {
    /// Encrypts the block in place under the value's round keys (Cipher, FIPS 197, 5.1).
    fn encrypt_block(&self, block: &mut Block)
        ensures { block.new ≡ fips.cipher_with (Self.round_keys self.now) block.old };

    /// Encrypts each block of one batch in place under the value's round keys (Cipher, FIPS 197,
    /// 5.1).
    fn encrypt_par_blocks(&self, blocks: &mut [Block])
        requires one_batch { length blocks.old ≡ Self.PAR_BLOCKS }
        ensures { Each (fips.cipher_with (Self.round_keys self.now)) blocks.old blocks.new };

    /// Encrypts the first `count` blocks of one batch in place, under the value's round keys
    /// (Cipher, FIPS 197, 5.1). Each of the others is then unchanged or encrypted too, since the
    /// whole batch may take less time than its first blocks. Don't pass, among the others, a block
    /// whose encryption is a secret, such as a block of zeros in GCM.
    #[tactic(auto, using(crate::proofs::FirstBlocks::first_blocks))]
    #[inline(always)]
    fn encrypt_first_blocks(&self, count: usize, blocks: &mut [Block])
        requires one_batch { length blocks.old ≡ Self.PAR_BLOCKS }
        requires inside { count ≤ length blocks.old }
        ensures first { Each (fips.cipher_with (Self.round_keys self.now)) (take count blocks.old)
            (take count blocks.new) }
        ensures others { EachOrUnchanged (fips.cipher_with (Self.round_keys self.now))
            blocks.old blocks.new }
    {
        if count == 1 {
            self.encrypt_block(&mut blocks[0]);
        } else {
            self.encrypt_par_blocks(blocks);
        }
    }
}

/// A caller's own work with a backend of any type and any batch size.
pub trait BlockCipherEncClosure {
    /// What the work does: a relation between the value before, the backend's round keys and the
    /// value after.
    ghost did: { Self → List (List ℕ) → Self → Type 0 };

    /// Does the closure's work with a backend.
    fn call<B: BlockCipherEncBackend>(&mut self, backend: &B)
        ensures { did self.old (B.round_keys backend.now) self.new };
}
