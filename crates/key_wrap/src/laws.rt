//! Laws of key wrap. A call has no effect; its contract states the law, for proofs that need it.

ghost use Rattle.std.specs.Prelude.{◌≡◌, ℕ, List, ◌∷◌, ◌+◌, ◌^◌, ◌<◌, ◌≤◌, length};
ghost use Rattle.std.specs.List.{All};
ghost use Rattle.aes_planes.specs.Fips197 as fips;
ghost use Rattle.key_wrap.specs.KeyWrap.{integrity_check, unwrapped, wrapped, IsSemiblock};
ghost use Rattle.key_wrap.specs.Padded.{headed, key_in, unwrapped_string, wrapped_padded, IsPadded};

use crate::steps::Semiblock;
use aes_cipher::blocks::halves_and_blocks;
use aes_planes::laws;

// No effect; states that a semiblock is eight bytes.
fn semiblock_has_8_bytes(semiblock: Semiblock)
    ensures { IsSemiblock semiblock }
{}

/// No effect; states that each semiblock of a key is eight bytes.
pub fn semiblocks_have_8_bytes(key: &[Semiblock])
    ensures { All IsSemiblock key.now }
{
    for i in 0..key.len() {
        semiblock_has_8_bytes(key[i]);
    }
}

/// No effect; states that unwrapping undoes wrapping, under round keys of the standard. The key
/// comes back, and the semiblock before it is the integrity check (KW, 6.2).
pub fn wrapping_undone()
    ensures { (w key : List (List ℕ)) → fips.AreRoundKeys w → All IsSemiblock key → 1 ≤ length key →
        length key < 2 ^ 54 → unwrapped w (wrapped w key) ≡ integrity_check ∷ key }
{
    laws::inverse_ciphers_with();
    laws::sums_of_blocks();
    halves_and_blocks();
}

/// No effect; states that a string of semiblocks that unwrapping accepts is the wrapping of the key
/// that comes out, under round keys of the standard. So no other string is accepted for that key
/// (KW, 6.2).
pub fn one_wrapping()
    ensures { (w key sealed : List (List ℕ)) → fips.AreRoundKeys w → All IsSemiblock sealed
        → 2 ≤ length sealed → length sealed ≤ 2 ^ 54
        → unwrapped w sealed ≡ integrity_check ∷ key → sealed ≡ wrapped w key }
{
    laws::inverse_ciphers_with();
    halves_and_blocks();
}

/// No effect; states that unwrapping undoes wrapping with padding, under round keys of the
/// standard. No key is refused, and each comes back (KWP, 6.3).
pub fn padding_undone()
    ensures { (w : List (List ℕ)) (key : List ℕ) → fips.AreRoundKeys w → fips.IsBytes key
        → 1 ≤ length key →
        length key < 2 ^ 32 → let s = unwrapped_string w (wrapped_padded w key) in IsPadded s
        × (key_in s ≡ key) }
{
    laws::inverse_ciphers_with();
    laws::sums_of_blocks();
    halves_and_blocks();
}
