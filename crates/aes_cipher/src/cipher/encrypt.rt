//! Block ciphers that encrypt.

ghost use Rattle.std.specs.Prelude.{◌≡◌, ◌≢◌, ◌↔◌, length, IsErr, OnOk, OnErr};
ghost use Rattle.aes_planes.specs.Each.{Each};
ghost use Rattle.aes_planes.specs.Fips197 as fips;

use super::encrypt_backend::BlockCipherEncClosure;
use super::errors::NotEqualError;
use super::round_keys::RoundKeysUser;
use super::sizes::{Block, BlockSizeUser};

/// A block cipher that encrypts.
pub trait BlockCipherEncrypt: BlockSizeUser + RoundKeysUser {
    /// Calls the closure once, with a backend of the value's round keys that suits many blocks: how
    /// many there will be is not known.
    fn encrypt_with_backend<F: BlockCipherEncClosure>(&self, f: &mut F)
        ensures { F.did f.old (Self.round_keys self.now) f.new };

    /// Calls the closure once, with a backend of the value's round keys that suits this number of
    /// blocks. The number affects speed and nothing else: by default it is ignored.
    #[inline(always)]
    fn encrypt_with_backend_for<F: BlockCipherEncClosure>(&self, _blocks: usize, f: &mut F)
        ensures { F.did f.old (Self.round_keys self.now) f.new }
    {
        self.encrypt_with_backend(f);
    }

    /// Encrypts the block in place under the value's round keys (Cipher, FIPS 197, 5.1).
    fn encrypt_block(&self, block: &mut Block)
        ensures { block.new ≡ fips.cipher_with (Self.round_keys self.now) block.old };

    /// Encrypts a block from one buffer to another under the value's round keys (Cipher, FIPS 197,
    /// 5.1).
    fn encrypt_block_b2b(&self, input: &Block, output: &mut Block)
        ensures { output.new ≡ fips.cipher_with (Self.round_keys self.now) input.now }
    {
        *output = *input;
        self.encrypt_block(output);
    }

    /// Encrypts each block of a slice in place under the value's round keys (Cipher, FIPS 197,
    /// 5.1).
    fn encrypt_blocks(&self, blocks: &mut [Block])
        ensures { Each (fips.cipher_with (Self.round_keys self.now)) blocks.old blocks.new };

    /// Encrypts each block of one slice to its place in another, under the value's round keys
    /// (Cipher, FIPS 197, 5.1).
    ///
    /// # Errors
    ///
    /// `NotEqualError` exactly if the slices differ in length; the output is then unchanged.
    fn encrypt_blocks_b2b(&self, input: &[Block], output: &mut [Block]) -> Result<(), NotEqualError>
        ensures refusal { IsErr result ↔ (length input.now ≢ length output.old) }
        ensures written { OnOk result
            (Each (fips.cipher_with (Self.round_keys self.now)) input.now output.new) }
        ensures untouched { OnErr result (output.new ≡ output.old) }
    {
        if input.len() != output.len() {
            return Err(NotEqualError);
        }
        output.copy_from_slice(input);
        self.encrypt_blocks(output);
        Ok(())
    }
}
