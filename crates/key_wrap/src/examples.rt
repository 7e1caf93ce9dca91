//! Key wrap at values from outside, as contracts: RFC 3394, 4.1, and RFC 5649, 6. With them the
//! prover refuses a mistake in a definition. The last two calls show that a key comes back, as
//! callers can prove it.
//!
//! `bytes n 0x..` is the n bytes that these digits write.

ghost use Rattle.std.specs.Prelude.{◌≡◌, ◌↔◌, ◌<◌, ◌≤◌, ℕ, ◌+◌, ◌-◌, ◌*◌, ◌^◌, List, ◌∷◌, [], ◌++◌};
ghost use Rattle.std.specs.Prelude.{drop, length, replicate, slice_index_or, take};
ghost use Rattle.std.specs.Prelude.{IfOk, IsOk, OnOk};
ghost use Rattle.std.specs.List.{concat};
ghost use Rattle.aes_planes.specs.BigEndian.{bytes};
ghost use Rattle.aes_planes.specs.Fips197 as fips;
ghost use Rattle.key_wrap.specs.KeyWrap.{number_added, wrap_step, wrapped_after, unwrap_step};
ghost use Rattle.key_wrap.specs.KeyWrap.{unwrapped_from, integrity_check, wrapped, unwrapped, Fit};
ghost use Rattle.key_wrap.specs.Padded.{semiblock_count, wrapped_string, unwrapped_string, wrapped_padded};
ghost use Rattle.key_wrap.specs.Padded.{FitPadded, FitUnpadded};

use crate::errors::InvalidCount;
use crate::laws::{padding_undone, semiblocks_have_8_bytes, wrapping_undone};
use crate::padded::{unwrap_padded, wrap_padded};
use crate::steps::Semiblock;
use crate::wrapping::{unwrap, wrap};
use aes_cipher::cipher::{BlockCipherDecrypt, BlockCipherEncrypt};

/// How long a key may be, in semiblocks and in bytes, and how many semiblocks it becomes (SP
/// 800-38F, 5.3.1). With padding, those after the first have 0 to 7 bytes more than the key.
#[tactic(auto, unfolding(crate::specs::Padded::semiblock_count))]
pub fn count_rules()
    ensures plain { (key sealed : ℕ) → Fit key sealed
        ↔ (2 ≤ key) × ((key < 2 ^ 54) × (sealed ≡ key + 1)) }
    ensures padded { (key rest : ℕ) → FitPadded key (rest + 1)
        ↔ (1 ≤ key) × ((key < 2 ^ 32) × ((key ≤ 8 * rest) × (8 * rest < key + 8))) }
    ensures unpadded { (output sealed : ℕ) → FitUnpadded output sealed
        ↔ (1 ≤ output) × ((output ≤ 2 ^ 29) × (sealed ≡ output + 1)) }
{}

/// The number of a step is added to all eight bytes of a semiblock. Worked out by hand for the
/// first step, for one whose number has more than 32 bits, and for the last one of the longest key.
#[tactic(auto, unfolding(crate::specs::KeyWrap::number_added, aes_planes::specs::BigEndian::bytes))]
pub fn number_examples()
    ensures first { number_added (replicate 8 0) 1 ≡ bytes 8 0x0000000000000001 }
    ensures high { number_added (replicate 8 0) (2 ^ 32) ≡ bytes 8 0x0000000100000000 }
    ensures last { number_added (replicate 8 0xa6) (6 * (2 ^ 54 - 1)) ≡ bytes 8 0xa7d959595959595c }
{}

/// Each step is as the first one, whatever its number. There are six for each semiblock of the key.
/// A string of more than two semiblocks goes through the same steps with padding and without (6.1;
/// 6.2, algorithm 3; 6.3, algorithms 5 and 6).
#[tactic(auto, unfolding(crate::proofs::OnLiterals::step_rules))]
pub fn step_rules()
    ensures begun { (w s : List (List ℕ)) → wrapped_after w s 0 ≡ s }
    ensures next { (w s : List (List ℕ)) (t : ℕ) → wrapped_after w s (t + 1)
        ≡ wrap_step w (t + 1) (wrapped_after w s t) }
    ensures ended { (w s : List (List ℕ)) → unwrapped_from w s 0 ≡ s }
    ensures back { (w s : List (List ℕ)) (t : ℕ) → unwrapped_from w s (t + 1)
        ≡ unwrapped_from w (unwrap_step w (t + 1) s) t }
    ensures whole { (w key : List (List ℕ))
        → wrapped w key ≡ wrapped_after w (integrity_check ∷ key) (6 * length key) }
    ensures whole_back { (w : List (List ℕ)) (a : List ℕ) (rs : List (List ℕ))
        → unwrapped w (a ∷ rs) ≡ unwrapped_from w (a ∷ rs) (6 * length rs) }
    ensures padded { (w : List (List ℕ)) (a r q : List ℕ) (rs : List (List ℕ))
        → wrapped_string w (a ∷ r ∷ q ∷ rs)
        ≡ wrapped_after w (a ∷ r ∷ q ∷ rs) (6 * length (r ∷ q ∷ rs)) }
    ensures padded_back { (w : List (List ℕ)) (a r q : List ℕ) (rs : List (List ℕ))
        → unwrapped_string w (a ∷ r ∷ q ∷ rs)
        ≡ unwrapped_from w (a ∷ r ∷ q ∷ rs) (6 * length (r ∷ q ∷ rs)) }
{}

/// One step, on any number of semiblocks. The step's number is added to the first one. Each of the
/// others moves up by one, and the last one becomes the second half of the block (6.1, algorithm 1,
/// step 2).
#[tactic(auto, unfolding(crate::specs::KeyWrap::wrap_step))]
pub fn single_step_rules()
    ensures first { (w rs : List (List ℕ)) (a r : List ℕ) (t : ℕ)
        → slice_index_or (wrap_step w t (a ∷ r ∷ rs)) 0 []
        ≡ number_added (take 8 (fips.cipher_with w (a ++ r))) t }
    ensures moved { (w rs : List (List ℕ)) (a r : List ℕ) (t i : ℕ) → i < length rs
        → slice_index_or (wrap_step w t (a ∷ r ∷ rs)) (i + 1) [] ≡ slice_index_or rs i [] }
    ensures last { (w rs : List (List ℕ)) (a r : List ℕ) (t : ℕ)
        → slice_index_or (wrap_step w t (a ∷ r ∷ rs)) (length rs + 1) []
        ≡ drop 8 (fips.cipher_with w (a ++ r)) }
    ensures length { (w rs : List (List ℕ)) (a r : List ℕ) (t : ℕ)
        → length (wrap_step w t (a ∷ r ∷ rs)) ≡ length rs + 2 }
{}

// The blocks of the twelve steps of W. Each has the first semiblock, and that semiblock of the key
// whose turn it is.
#[tactic(auto, using(aes_planes::proofs::OnLiterals::ciphers), unfolding(aes_planes::proofs::OnLiterals::aes_by_table))]
fn encrypted_blocks()
    ensures one { fips.cipher_with
        (fips.key_expansion (bytes 16 0x000102030405060708090a0b0c0d0e0f))
        (bytes 16 0xa6a6a6a6a6a6a6a60011223344556677)
        ≡ bytes 16 0xf4740052e82a225174ce86fbd7b805e7 }
    ensures two { fips.cipher_with
        (fips.key_expansion (bytes 16 0x000102030405060708090a0b0c0d0e0f))
        (bytes 16 0xf4740052e82a22508899aabbccddeeff)
        ≡ bytes 16 0x06ba4ebde7768d0bd132ee38147e76f8 }
    ensures three { fips.cipher_with
        (fips.key_expansion (bytes 16 0x000102030405060708090a0b0c0d0e0f))
        (bytes 16 0x06ba4ebde7768d0974ce86fbd7b805e7)
        ≡ bytes 16 0xfc967627be937208fe6e8d679c5d3460 }
    ensures four { fips.cipher_with
        (fips.key_expansion (bytes 16 0x000102030405060708090a0b0c0d0e0f))
        (bytes 16 0xfc967627be93720bd132ee38147e76f8)
        ≡ bytes 16 0x5896ea9028ee203b07b2bd973e36a6fc }
    ensures five { fips.cipher_with
        (fips.key_expansion (bytes 16 0x000102030405060708090a0b0c0d0e0f))
        (bytes 16 0x5896ea9028ee203ffe6e8d679c5d3460)
        ≡ bytes 16 0x93aea71b258d90c325f5a3adc2195401 }
    ensures six { fips.cipher_with
        (fips.key_expansion (bytes 16 0x000102030405060708090a0b0c0d0e0f))
        (bytes 16 0x93aea71b258d90c607b2bd973e36a6fc)
        ≡ bytes 16 0xe3ee986344d878f7f14863bb1e9ca90a }
    ensures seven { fips.cipher_with
        (fips.key_expansion (bytes 16 0x000102030405060708090a0b0c0d0e0f))
        (bytes 16 0xe3ee986344d878f125f5a3adc2195401)
        ≡ bytes 16 0x2bfc21b2c20e4006b556d35ed8cef052 }
    ensures eight { fips.cipher_with
        (fips.key_expansion (bytes 16 0x000102030405060708090a0b0c0d0e0f))
        (bytes 16 0x2bfc21b2c20e4001f14863bb1e9ca90a)
        ≡ bytes 16 0x4be8ce99c0a43a7d64bae5818d0570bb }
    ensures nine { fips.cipher_with
        (fips.key_expansion (bytes 16 0x000102030405060708090a0b0c0d0e0f))
        (bytes 16 0x4be8ce99c0a43a75b556d35ed8cef052)
        ≡ bytes 16 0xebe1ce91067024f3be114b343eb00981 }
    ensures ten { fips.cipher_with
        (fips.key_expansion (bytes 16 0x000102030405060708090a0b0c0d0e0f))
        (bytes 16 0xebe1ce91067024fa64bae5818d0570bb)
        ≡ bytes 16 0x5a9c7b1f5b1c3b464fd3d2b7d74fbb42 }
    ensures eleven { fips.cipher_with
        (fips.key_expansion (bytes 16 0x000102030405060708090a0b0c0d0e0f))
        (bytes 16 0x5a9c7b1f5b1c3b4cbe114b343eb00981)
        ≡ bytes 16 0x93b71967eed41ffcaef34bd8fb5a7b82 }
    ensures twelve { fips.cipher_with
        (fips.key_expansion (bytes 16 0x000102030405060708090a0b0c0d0e0f))
        (bytes 16 0x93b71967eed41ff74fd3d2b7d74fbb42)
        ≡ bytes 16 0x1fa68b0a8112b44b9d3e862371d2cfe5 }
{}

// The block of a key of seven bytes with its padding.
#[tactic(auto, using(aes_planes::proofs::OnLiterals::ciphers), unfolding(aes_planes::proofs::OnLiterals::aes_by_table))]
fn encrypted_padded_block()
    ensures { fips.cipher_with
        (fips.key_expansion (bytes 24 0x5840df6e29b02af1ab493b705bf16ea1ae8338f4dcc176a8))
        (bytes 16 0xa65959a600000007466f725061736900)
        ≡ bytes 16 0xafbeb0f07dfbf5419200f2ccb50bb24f }
{}

/// A key of two semiblocks, wrapped.
pub fn wrapped_128_example()
    ensures { wrapped (fips.key_expansion (bytes 16 0x000102030405060708090a0b0c0d0e0f))
        (bytes 8 0x0011223344556677 ∷ bytes 8 0x8899aabbccddeeff ∷ [])
        ≡ bytes 8 0x1fa68b0a8112b447 ∷ bytes 8 0xaef34bd8fb5a7b82
        ∷ bytes 8 0x9d3e862371d2cfe5 ∷ [] }
{
    encrypted_blocks();
}

/// A key of seven bytes, padded and wrapped.
pub fn padded_192_example()
    ensures { wrapped_padded
        (fips.key_expansion (bytes 24 0x5840df6e29b02af1ab493b705bf16ea1ae8338f4dcc176a8))
        (bytes 7 0x466f7250617369) ≡ bytes 8 0xafbeb0f07dfbf541 ∷ bytes 8 0x9200f2ccb50bb24f ∷ [] }
{
    encrypted_padded_block();
}

/// Wraps a key and unwraps it again. It isn't refused, and comes back.
///
/// # Errors
///
/// `InvalidCount` exactly if a key may not have this many semiblocks, or either output doesn't fit.
pub fn there_and_back<C: BlockCipherEncrypt + BlockCipherDecrypt>(
    cipher: &C,
    key: &[Semiblock],
    sealed: &mut [Semiblock],
    back: &mut [Semiblock],
) -> Result<(), InvalidCount>
    ensures done { IsOk result ↔ Fit (length key.now) (length sealed.old)
        × (length back.old ≡ length key.now) }
    ensures sealed { OnOk result (sealed.new ≡ wrapped (C.round_keys cipher.now) key.now) }
    ensures back { OnOk result (back.new ≡ key.now) }
{
    wrapping_undone();
    cipher.round_keys_are_blocks();
    semiblocks_have_8_bytes(key);
    wrap(cipher, key, sealed)?;
    match unwrap(cipher, sealed, back) {
        Ok(()) => Ok(()),
        Err(_) => Err(InvalidCount),
    }
}

/// Pads and wraps a key, and unwraps it again. It isn't refused, and the first bytes of what comes
/// back are the key.
///
/// # Errors
///
/// `InvalidCount` exactly if a key may not have this many bytes, or either output doesn't fit.
pub fn padded_there_and_back<C: BlockCipherEncrypt + BlockCipherDecrypt>(
    cipher: &C,
    key: &[u8],
    sealed: &mut [Semiblock],
    back: &mut [Semiblock],
) -> Result<u32, InvalidCount>
    ensures done { IsOk result
        ↔ FitPadded (length key.now) (length sealed.old)
        × (length back.old ≡ semiblock_count (length key.now)) }
    ensures sealed { OnOk result (sealed.new ≡ wrapped_padded (C.round_keys cipher.now) key.now) }
    ensures back { IfOk result (λ count. take count (concat back.new) ≡ key.now) }
{
    padding_undone();
    cipher.round_keys_are_blocks();
    wrap_padded(cipher, key, sealed)?;
    match unwrap_padded(cipher, sealed, back) {
        Ok(count) => Ok(count),
        Err(_) => Err(InvalidCount),
    }
}
