//! Calls that encrypt and decrypt bytes in place, block by block, and the laws of these calls.

ghost use Rattle.std.specs.Prelude.{◌≡◌, ◌≢◌, ◌↔◌, ℕ, ◌*◌, ◌+◌, ◌/◌, ◌%◌, ◌<◌, List, [], length};
ghost use Rattle.std.specs.Prelude.{slice_index, slice_index_or, IsErr, OnOk, OnErr};
ghost use Rattle.std.specs.List.{concat};
ghost use Rattle.aes_planes.specs.Each.{Each};
ghost use Rattle.aes_planes.specs.Fips197 as fips;
ghost use Rattle.aes_cipher.specs.Blocks.{blocks_of, Sixteens};

mod processing;

use crate::cipher::{BlockCipherDecrypt, BlockCipherEncrypt, Decrypt, Encrypt};
use processing::process_bytes;

/// The length of the bytes is no multiple of 16.
#[derive(Debug, Clone, Copy, PartialEq, Eq)]
pub struct PartialBlock;

/// Encrypts bytes in place, block by block, under the value's round keys (Cipher, FIPS 197, 5.1).
///
/// # Errors
///
/// `PartialBlock` exactly if the length is no multiple of 16; the bytes are then unchanged.
pub fn encrypt_bytes<C: BlockCipherEncrypt>(
    cipher: &C,
    bytes: &mut [u8],
) -> Result<(), PartialBlock>
    ensures refusal { IsErr result ↔ (length bytes.old % 16 ≢ 0) }
    ensures written { OnOk result (Each (fips.cipher_with (C.round_keys cipher.now))
        (blocks_of bytes.old) (blocks_of bytes.new)) }
    ensures untouched { OnErr result (bytes.new ≡ bytes.old) }
{
    process_bytes::<Encrypt, C>(cipher, bytes)
}

/// Decrypts bytes in place, block by block, under the value's round keys (InvCipher, FIPS 197,
/// 5.3).
///
/// # Errors
///
/// `PartialBlock` exactly if the length is no multiple of 16; the bytes are then unchanged.
pub fn decrypt_bytes<C: BlockCipherDecrypt>(
    cipher: &C,
    bytes: &mut [u8],
) -> Result<(), PartialBlock>
    ensures refusal { IsErr result ↔ (length bytes.old % 16 ≢ 0) }
    ensures written { OnOk result (Each (fips.inv_cipher_with (C.round_keys cipher.now))
        (blocks_of bytes.old) (blocks_of bytes.new)) }
    ensures untouched { OnErr result (bytes.new ≡ bytes.old) }
{
    process_bytes::<Decrypt, C>(cipher, bytes)
}

/// No effect; states how bytes and their blocks correspond. Whole blocks, joined, are the bytes.
/// Joined blocks split into those blocks again. There is a block for every sixteen bytes. Two
/// clauses give byte j of block i, and byte i of joined blocks.
#[tactic(auto, using(crate::proofs::ByteBlocks::byte_laws))]
pub fn blocks_and_bytes()
    ensures joined { (bytes : List ℕ) → length bytes % 16 ≡ 0 → concat (blocks_of bytes) ≡ bytes }
    ensures parted { (blocks : List (List ℕ)) → Sixteens blocks
        → blocks_of (concat blocks) ≡ blocks }
    ensures count { (bytes : List ℕ) → length (blocks_of bytes) ≡ length bytes / 16 }
    ensures byte_of_block { (bytes : List ℕ) (i j : ℕ) → i < length bytes / 16 → j < 16 →
        slice_index (slice_index_or (blocks_of bytes) i []) j ≡ slice_index bytes (16 * i + j) }
    ensures byte_of_joined { (blocks : List (List ℕ)) (i : ℕ) → Sixteens blocks
        → i < 16 * length blocks →
        slice_index (concat blocks) i ≡ slice_index (slice_index_or blocks (i / 16) []) (i % 16) }
{}
