//! Key wrap under the key of a struct.

ghost use Rattle.std.specs.Prelude.{◌≡◌, ◌≢◌, ◌↔◌, ◌^◌, ◌<◌, ◌∷◌, [], length, replicate};
ghost use Rattle.std.specs.Prelude.{slice_index_or};
ghost use Rattle.key_wrap.specs.KeyWrap.{integrity_check, unwrapped, wrapped, Fit};
ghost use Rattle.key_wrap.specs.Padded.{heading, unwrapped_string, wrapped_padded, FitPadded};
ghost use Rattle.key_wrap.specs.Padded.{FitUnpadded, IsPadded};
ghost use Rattle.aes_c.specs.Form.{round_keys_in, HoldsKey, IsMade};

use crate::form::{Aes, cipher_of, inverse_cipher_of};
use crate::status::{DONE, INVALID_COUNT, NO_KEY, REFUSED};
use aes_cipher::zeroize::wipe_stack;
use key_wrap::{InvalidCount, NotUnwrapped, Semiblock, unwrap, unwrap_padded, wrap, wrap_padded};

// The most bytes of stack of a call that wraps or unwraps. Parts of the key are left there.
const WRAPPING_STACK: usize = 512;

/// Wraps a key from one buffer to another (KW-AE, SP 800-38F, 6.2). Returns `NO_KEY` exactly if the
/// struct holds no key. Else returns `INVALID_COUNT` if the key has fewer than two semiblocks or
/// too many, or if the output isn't one semiblock longer. Returns `DONE` in all other cases.
#[unsafe(no_mangle)]
pub extern "C" fn fotsgure_aes_wrap(aes: &Aes, key: &[Semiblock], output: &mut [Semiblock]) -> u32
    requires made { IsMade aes.now }
    ensures no_key { result ≡ NO_KEY ↔ ¬ HoldsKey aes.now.key }
    ensures done { result ≡ DONE ↔ HoldsKey aes.now.key
        × Fit (length key.now) (length output.old) }
    ensures invalid { result ≢ DONE → result ≢ NO_KEY → result ≡ INVALID_COUNT }
    ensures wrapped { result ≡ DONE → output.new ≡ wrapped (round_keys_in aes.now.key) key.now }
    ensures untouched { result ≢ DONE → output.new ≡ output.old }
{
    if !aes.key.holds_key() {
        return NO_KEY;
    }
    let result = wrap(&cipher_of(&aes.key), key, output);
    wipe_stack::<WRAPPING_STACK>();
    match result {
        Ok(()) => DONE,
        Err(InvalidCount) => INVALID_COUNT,
    }
}

/// Unwraps a key from one buffer to another (KW-AD, SP 800-38F, 6.2). Returns `NO_KEY` exactly if
/// the struct holds no key. Else returns `INVALID_COUNT` if no key becomes this many semiblocks, or
/// if the output isn't one semiblock shorter. Else returns `REFUSED` if the key was not wrapped
/// under this one, and `DONE` in all other cases. After `REFUSED` the output is zeros.
#[unsafe(no_mangle)]
pub extern "C" fn fotsgure_aes_unwrap(
    aes: &Aes,
    sealed: &[Semiblock],
    output: &mut [Semiblock],
) -> u32
    requires made { IsMade aes.now }
    ensures no_key { result ≡ NO_KEY ↔ ¬ HoldsKey aes.now.key }
    ensures invalid { result ≡ INVALID_COUNT
        ↔ HoldsKey aes.now.key × (¬ Fit (length output.old) (length sealed.now)) }
    ensures done { result ≡ DONE
        ↔ HoldsKey aes.now.key × (Fit (length output.old) (length sealed.now)
        × (slice_index_or (unwrapped (round_keys_in aes.now.key) sealed.now) 0 [] ≡ integrity_check)) }
    ensures refused { result ≢ DONE → result ≢ NO_KEY → result ≢ INVALID_COUNT → result ≡ REFUSED }
    ensures key { result ≡ DONE → integrity_check ∷ output.new
        ≡ unwrapped (round_keys_in aes.now.key) sealed.now }
    ensures zeros { result ≡ REFUSED → output.new ≡ replicate (length output.old) (replicate 8 0) }
    ensures untouched { result ≢ DONE → result ≢ REFUSED → output.new ≡ output.old }
{
    if !aes.key.holds_key() {
        return NO_KEY;
    }
    let result = unwrap(&inverse_cipher_of(aes), sealed, output);
    wipe_stack::<WRAPPING_STACK>();
    match result {
        Ok(()) => DONE,
        Err(NotUnwrapped::InvalidCount) => INVALID_COUNT,
        Err(NotUnwrapped::Refused) => REFUSED,
    }
}

/// Pads and wraps a key from one buffer to another (KWP-AE, SP 800-38F, 6.3). Returns `NO_KEY`
/// exactly if the struct holds no key. Else returns `INVALID_COUNT` if the key has no byte or too
/// many, or if the output isn't one semiblock longer than the key fills. Returns `DONE` in all
/// other cases.
#[unsafe(no_mangle)]
pub extern "C" fn fotsgure_aes_wrap_padded(aes: &Aes, key: &[u8], output: &mut [Semiblock]) -> u32
    requires made { IsMade aes.now }
    ensures no_key { result ≡ NO_KEY ↔ ¬ HoldsKey aes.now.key }
    ensures done { result ≡ DONE ↔ HoldsKey aes.now.key
        × FitPadded (length key.now) (length output.old) }
    ensures invalid { result ≢ DONE → result ≢ NO_KEY → result ≡ INVALID_COUNT }
    ensures wrapped { result ≡ DONE → output.new ≡ wrapped_padded (round_keys_in aes.now.key) key.now }
    ensures untouched { result ≢ DONE → output.new ≡ output.old }
{
    if !aes.key.holds_key() {
        return NO_KEY;
    }
    let result = wrap_padded(&cipher_of(&aes.key), key, output);
    wipe_stack::<WRAPPING_STACK>();
    match result {
        Ok(()) => DONE,
        Err(InvalidCount) => INVALID_COUNT,
    }
}

/// Unwraps a key that was wrapped with padding, from one buffer to another (KWP-AD, SP 800-38F,
/// 6.3). Sets `key_bytes` to how many bytes the key has. They are the first bytes of the output,
/// and zeros follow. Returns `NO_KEY` exactly if the struct holds no key. Else returns
/// `INVALID_COUNT` if no key becomes this many semiblocks, or if the output isn't one semiblock
/// shorter. Else returns `REFUSED` if the key was not wrapped with padding under this one, and
/// `DONE` in all other cases. After `REFUSED` the output is zeros, and in all cases but `DONE` the
/// length is 0.
#[unsafe(no_mangle)]
pub extern "C" fn fotsgure_aes_unwrap_padded(
    aes: &Aes,
    sealed: &[Semiblock],
    output: &mut [Semiblock],
    key_bytes: &mut usize,
) -> u32
    requires made { IsMade aes.now }
    ensures no_key { result ≡ NO_KEY ↔ ¬ HoldsKey aes.now.key }
    ensures invalid { result ≡ INVALID_COUNT
        ↔ HoldsKey aes.now.key × (¬ FitUnpadded (length output.old) (length sealed.now)) }
    ensures done { result ≡ DONE
        ↔ HoldsKey aes.now.key × (FitUnpadded (length output.old) (length sealed.now)
        × IsPadded (unwrapped_string (round_keys_in aes.now.key) sealed.now)) }
    ensures refused { result ≢ DONE → result ≢ NO_KEY → result ≢ INVALID_COUNT → result ≡ REFUSED }
    ensures key { result ≡ DONE → heading key_bytes.new ∷ output.new
        ≡ unwrapped_string (round_keys_in aes.now.key) sealed.now }
    ensures small { key_bytes.new < 2 ^ 32 }
    ensures none { result ≢ DONE → key_bytes.new ≡ 0 }
    ensures zeros { result ≡ REFUSED → output.new ≡ replicate (length output.old) (replicate 8 0) }
    ensures untouched { result ≢ DONE → result ≢ REFUSED → output.new ≡ output.old }
{
    *key_bytes = 0;
    if !aes.key.holds_key() {
        return NO_KEY;
    }
    let result = unwrap_padded(&inverse_cipher_of(aes), sealed, output);
    wipe_stack::<WRAPPING_STACK>();
    match result {
        Ok(bytes) => {
            *key_bytes = bytes as usize;
            DONE
        }
        Err(NotUnwrapped::InvalidCount) => INVALID_COUNT,
        Err(NotUnwrapped::Refused) => REFUSED,
    }
}
