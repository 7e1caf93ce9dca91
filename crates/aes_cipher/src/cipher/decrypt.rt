//! Block ciphers that decrypt.

ghost use Rattle.std.specs.Prelude.{◌≡◌, ◌≢◌, ◌↔◌, length, IsErr, OnOk, OnErr};
ghost use Rattle.aes_planes.specs.Each.{Each};
ghost use Rattle.aes_planes.specs.Fips197 as fips;

use super::decrypt_backend::BlockCipherDecClosure;
use super::errors::NotEqualError;
use super::round_keys::RoundKeysUser;
use super::sizes::{Block, BlockSizeUser};

/// A block cipher that decrypts.
pub trait BlockCipherDecrypt: BlockSizeUser + RoundKeysUser {
    /// Calls the closure once, with a backend of the value's round keys that suits many blocks: how
    /// many there will be is not known.
    fn decrypt_with_backend<F: BlockCipherDecClosure>(&self, f: &mut F)
        ensures { F.did f.old (Self.round_keys self.now) f.new };

    /// Calls the closure once, with a backend of the value's round keys that suits this number of
    /// blocks. The number affects speed and nothing else: by default it is ignored.
    #[inline(always)]
    fn decrypt_with_backend_for<F: BlockCipherDecClosure>(&self, _blocks: usize, f: &mut F)
        ensures { F.did f.old (Self.round_keys self.now) f.new }
    {
        self.decrypt_with_backend(f);
    }

    /// Decrypts the block in place under the value's round keys (InvCipher, FIPS 197, 5.3).
    fn decrypt_block(&self, block: &mut Block)
        ensures { block.new ≡ fips.inv_cipher_with (Self.round_keys self.now) block.old };

    /// Decrypts a block from one buffer to another under the value's round keys (InvCipher, FIPS
    /// 197, 5.3).
    fn decrypt_block_b2b(&self, input: &Block, output: &mut Block)
        ensures { output.new ≡ fips.inv_cipher_with (Self.round_keys self.now) input.now }
    {
        *output = *input;
        self.decrypt_block(output);
    }

    /// Decrypts each block of a slice in place under the value's round keys (InvCipher, FIPS 197,
    /// 5.3).
    fn decrypt_blocks(&self, blocks: &mut [Block])
        ensures { Each (fips.inv_cipher_with (Self.round_keys self.now)) blocks.old blocks.new };

    /// Decrypts each block of one slice to its place in another, under the value's round keys
    /// (InvCipher, FIPS 197, 5.3).
    ///
    /// # Errors
    ///
    /// `NotEqualError` exactly if the slices differ in length; the output is then unchanged.
    fn decrypt_blocks_b2b(&self, input: &[Block], output: &mut [Block]) -> Result<(), NotEqualError>
        ensures refusal { IsErr result ↔ (length input.now ≢ length output.old) }
        ensures written { OnOk result
            (Each (fips.inv_cipher_with (Self.round_keys self.now)) input.now output.new) }
        ensures untouched { OnErr result (output.new ≡ output.old) }
    {
        if input.len() != output.len() {
            return Err(NotEqualError);
        }
        output.copy_from_slice(input);
        self.decrypt_blocks(output);
        Ok(())
    }
}
