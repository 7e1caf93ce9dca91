//! Keys, wrapped and unwrapped from one buffer to another.

ghost use Rattle.std.specs.Prelude.{◌≡◌, ◌≢◌, ◌↔◌, ◌⊎◌, ◌+◌, ◌^◌, ◌<◌, ◌≤◌, ◌∷◌, length, replicate};
ghost use Rattle.std.specs.Prelude.{slice_index_or, IsErrOf, IsOk, IsTrue, OnErr, OnOk, []};
ghost use Rattle.key_wrap.specs.KeyWrap.{integrity_check, unwrapped, wrapped, Fit};

use crate::errors::{InvalidCount, NotUnwrapped};
use crate::steps::{Semiblock, unwrap_in_place, wrap_in_place};
use aes_cipher::blocks::{block_of_halves, blocks_equal, halves_and_blocks};
use aes_cipher::cipher::{BlockCipherDecrypt, BlockCipherEncrypt};

// The first semiblock of what is wrapped (6.2).
const INTEGRITY_CHECK: Semiblock = [0xa6; 8];

// The most semiblocks of a key, and one more (5.3.1).
const TOO_MANY: u64 = 1 << 54;

// Whether keys may have this many semiblocks.
fn is_allowed(count: usize) -> bool
    ensures { IsTrue result ↔ (2 ≤ count) × (count < 2 ^ 54) }
{
    count >= 2 && (count as u64) < TOO_MANY
}

/// Wraps a key of two semiblocks or more (KW-AE, 6.2): `output` has one semiblock more.
///
/// # Errors
///
/// `InvalidCount` exactly if the key has fewer than two semiblocks or 2^54 or more, or the output
/// isn't one semiblock longer than the key. The output is then unchanged.
#[inline(never)]
pub fn wrap<C: BlockCipherEncrypt>(
    cipher: &C,
    key: &[Semiblock],
    output: &mut [Semiblock],
) -> Result<(), InvalidCount>
    ensures done { IsOk result ↔ Fit (length key.now) (length output.old) }
    ensures wrapped { OnOk result (output.new ≡ wrapped (C.round_keys cipher.now) key.now) }
    ensures untouched { OnErr result (output.new ≡ output.old) }
{
    if !is_allowed(key.len()) || output.len() != key.len() + 1 {
        return Err(InvalidCount);
    }
    if let Some((check, others)) = output.split_first_mut() {
        *check = INTEGRITY_CHECK;
        others.copy_from_slice(key);
        wrap_in_place(cipher, check, others);
    }
    Ok(())
}

// Copies all semiblocks but the first to the output, and returns that one.
pub(crate) fn copy_apart(sealed: &[Semiblock], output: &mut [Semiblock]) -> Semiblock
    requires { length sealed.now ≡ length output.old + 1 }
    ensures { result ∷ output.new ≡ sealed.now }
{
    output.copy_from_slice(&sealed[1..]);
    sealed[0]
}

// Unwraps all semiblocks. Writes all but the first to the output, and returns the first.
fn unwrap_all<C: BlockCipherDecrypt>(
    cipher: &C,
    sealed: &[Semiblock],
    output: &mut [Semiblock],
) -> Semiblock
    requires sized { length sealed.now ≡ length output.old + 1 }
    requires few { length output.old < 2 ^ 54 }
    ensures first { slice_index_or (unwrapped (C.round_keys cipher.now) sealed.now) 0 [] ≡ result }
    ensures all { result ∷ output.new ≡ unwrapped (C.round_keys cipher.now) sealed.now }
{
    let mut check = copy_apart(sealed, output);
    unwrap_in_place(cipher, &mut check, output);
    check
}

/// Unwraps a key (KW-AD, 6.2): `output` has one semiblock less than `sealed`. Compares without an
/// early exit.
///
/// # Errors
///
/// `InvalidCount` exactly if no key becomes this many semiblocks, or the output has another length.
/// The output is then unchanged. Else `Refused` exactly if the key was not wrapped under the key of
/// this cipher. The output is then zeros.
#[inline(never)]
pub fn unwrap<C: BlockCipherDecrypt>(
    cipher: &C,
    sealed: &[Semiblock],
    output: &mut [Semiblock],
) -> Result<(), NotUnwrapped>
    ensures invalid { IsErrOf result NotUnwrapped.InvalidCount ↔ ¬ Fit (length output.old)
        (length sealed.now) }
    ensures done { IsOk result ↔ Fit (length output.old) (length sealed.now)
        × (slice_index_or (unwrapped (C.round_keys cipher.now) sealed.now) 0 [] ≡ integrity_check) }
    ensures key { OnOk result (integrity_check ∷ output.new
        ≡ unwrapped (C.round_keys cipher.now) sealed.now) }
    ensures untouched { IsErrOf result NotUnwrapped.InvalidCount → output.new ≡ output.old }
    ensures zeros { IsErrOf result NotUnwrapped.Refused
        → output.new ≡ replicate (length output.old) (replicate 8 0) }
{
    if !is_allowed(output.len()) || sealed.len() != output.len() + 1 {
        return Err(NotUnwrapped::InvalidCount);
    }
    let check = unwrap_all(cipher, sealed, output);
    if !is_integrity_check(&check) {
        output.fill([0; 8]);
        return Err(NotUnwrapped::Refused);
    }
    Ok(())
}

// Whether a semiblock is the integrity check. It reads every byte, without an early exit.
fn is_integrity_check(check: &Semiblock) -> bool
    ensures { IsTrue result ↔ (check.now ≡ integrity_check) }
{
    halves_and_blocks();
    let both = block_of_halves(check, &INTEGRITY_CHECK);
    blocks_equal(&both, &[0xa6; 16])
}
