//! The two directions, encryption and decryption, and ciphers in one of them. Code that uses these
//! is written once for both directions.

ghost use Rattle.std.specs.Prelude.{◌≡◌, ◌≢◌, ◌↔◌, ℕ, List, length, IsErr, OnOk, OnErr};
ghost use Rattle.aes_planes.specs.Each.{Each};
ghost use Rattle.aes_planes.specs.Fips197 as fips;

use super::decrypt::BlockCipherDecrypt;
use super::decrypt_backend::BlockCipherDecClosure;
use super::encrypt::BlockCipherEncrypt;
use super::encrypt_backend::BlockCipherEncClosure;
use super::errors::NotEqualError;
use super::round_keys::RoundKeysUser;
use super::sizes::Block;

/// A direction in which blocks are processed.
pub trait Direction {
    /// What a block becomes under a list of round keys.
    ghost processed: { List (List ℕ) → List ℕ → List ℕ };

    /// What a round does before it adds its round key, in Cipher or EqInvCipher (FIPS 197, 5.1,
    /// 5.3.5).
    ghost step: { List ℕ → List ℕ };

    /// What the last round does before it adds its round key: it does not mix columns.
    ghost last_step: { List ℕ → List ℕ };

    /// Selects the claim for this direction from one for encryption and one for decryption.
    ghost either: { Type 0 → Type 0 → Type 0 };
}

/// Encryption: Cipher (FIPS 197, 5.1).
pub struct Encrypt;

/// Decryption: InvCipher (FIPS 197, 5.3).
pub struct Decrypt;

impl Direction for Encrypt {
    ghost processed = { fips.cipher_with };

    ghost step = { λ b. fips.mix_columns (fips.shift_rows (fips.sub_bytes b)) };

    ghost last_step = { λ b. fips.shift_rows (fips.sub_bytes b) };

    ghost either = { λ encryption decryption. encryption };
}

impl Direction for Decrypt {
    ghost processed = { fips.inv_cipher_with };

    ghost step = { λ b. fips.inv_mix_columns (fips.inv_shift_rows (fips.inv_sub_bytes b)) };

    ghost last_step = { λ b. fips.inv_shift_rows (fips.inv_sub_bytes b) };

    ghost either = { λ encryption decryption. decryption };
}

/// A cipher that processes blocks in the direction D: every cipher of that direction is one.
pub trait CipherIn<D: Direction>: RoundKeysUser {
    /// Processes the block in place.
    fn process_block(&self, block: &mut Block)
        ensures { block.new ≡ D.processed (Self.round_keys self.now) block.old };

    /// Processes each block of a slice in place.
    fn process_blocks(&self, blocks: &mut [Block])
        ensures { Each (D.processed (Self.round_keys self.now)) blocks.old blocks.new };

    /// Processes each block of one slice to its place in another.
    ///
    /// # Errors
    ///
    /// `NotEqualError` exactly if the slices differ in length; the output is then unchanged.
    fn process_blocks_b2b(&self, input: &[Block], output: &mut [Block]) -> Result<(), NotEqualError>
        ensures refusal { IsErr result ↔ (length input.now ≢ length output.old) }
        ensures written { OnOk result
            (Each (D.processed (Self.round_keys self.now)) input.now output.new) }
        ensures untouched { OnErr result (output.new ≡ output.old) };

    /// Calls the closure once, with a backend of the value's round keys.
    fn process_with_backend<F: BlockCipherEncClosure + BlockCipherDecClosure>(&self, f: &mut F)
        ensures { D.either
            (⟦<F as BlockCipherEncClosure>⟧.did f.old (Self.round_keys self.now) f.new)
            (⟦<F as BlockCipherDecClosure>⟧.did f.old (Self.round_keys self.now) f.new) };
}

impl<C: BlockCipherEncrypt> CipherIn<Encrypt> for C {
    fn process_block(&self, block: &mut Block) {
        self.encrypt_block(block);
    }

    fn process_blocks(&self, blocks: &mut [Block]) {
        self.encrypt_blocks(blocks);
    }

    fn process_blocks_b2b(
        &self,
        input: &[Block],
        output: &mut [Block],
    ) -> Result<(), NotEqualError> {
        self.encrypt_blocks_b2b(input, output)
    }

    fn process_with_backend<F: BlockCipherEncClosure + BlockCipherDecClosure>(&self, f: &mut F) {
        self.encrypt_with_backend(f);
    }
}

impl<C: BlockCipherDecrypt> CipherIn<Decrypt> for C {
    fn process_block(&self, block: &mut Block) {
        self.decrypt_block(block);
    }

    fn process_blocks(&self, blocks: &mut [Block]) {
        self.decrypt_blocks(blocks);
    }

    fn process_blocks_b2b(
        &self,
        input: &[Block],
        output: &mut [Block],
    ) -> Result<(), NotEqualError> {
        self.decrypt_blocks_b2b(input, output)
    }

    fn process_with_backend<F: BlockCipherEncClosure + BlockCipherDecClosure>(&self, f: &mut F) {
        self.decrypt_with_backend(f);
    }
}
