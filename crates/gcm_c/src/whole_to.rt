//! A message in one call, from one buffer to another.

ghost use Rattle.std.specs.Prelude.{◌≡◌, ◌≢◌, ◌↔◌, length, replicate};
ghost use Rattle.gcm.specs.Gcm as nist;
ghost use Rattle.gcm.specs.Gcm.{IsHashedLength, IsTextLength, IsTooLong};
ghost use Rattle.gcm_c.specs.Form.{HoldsKey};
ghost use Rattle.gcm_c.specs.Kept.{round_keys_in, IsMade, IsNonceLength};

use crate::kept::{Gcm, mode_of};
use crate::status::{DONE, NO_KEY, NONCE_LENGTH, REFUSED, TAG_LENGTH, TOO_LONG, UNEQUAL_LENGTHS};
use crate::whole::{fotsgure_gcm_seal, refusal};

// Copies a text that will be encrypted. This is a call of its own, and its registers aren't saved.
// Registers of the caller, with a byte of the text, could be saved above the stack that is wiped.
#[inline(never)]
fn copy(input: &[u8], output: &mut [u8])
    requires { length input.now ≡ length output.old }
    ensures { output.new ≡ input.now }
{
    output.copy_from_slice(input);
}

/// Encrypts from one buffer to another as `fotsgure_gcm_seal` does in place (SP 800-38D, 7.1).
/// Returns `UNEQUAL_LENGTHS` exactly if the buffers differ in length, and else what
/// `fotsgure_gcm_seal` returns.
#[unsafe(no_mangle)]
pub extern "C" fn fotsgure_gcm_seal_to(
    gcm: &Gcm,
    nonce: &[u8],
    additional: &[u8],
    input: &[u8],
    output: &mut [u8],
    tag: &mut [u8; 16],
) -> u32
    requires made { IsMade gcm.now }
    ensures unequal { result ≡ UNEQUAL_LENGTHS ↔ (length input.now ≢ length output.old) }
    ensures nonce_length { result ≡ NONCE_LENGTH ↔ (length input.now ≡ length output.old)
        × ¬ IsNonceLength (length nonce.now) }
    ensures too_long { result ≡ TOO_LONG ↔ (length input.now ≡ length output.old)
        × (IsNonceLength (length nonce.now)
        × IsTooLong (length additional.now) (length input.now)) }
    ensures done { result ≡ DONE ↔ (length input.now ≡ length output.old)
        × (IsNonceLength (length nonce.now) × (IsHashedLength (length additional.now)
        × (IsTextLength (length input.now) × HoldsKey gcm.now.key))) }
    ensures refused { result ≢ DONE → result ≢ UNEQUAL_LENGTHS → result ≢ NONCE_LENGTH
        → result ≢ TOO_LONG → result ≡ NO_KEY }
    ensures encrypted { result ≡ DONE → output.new
        ≡ nist.text (round_keys_in gcm.now) nonce.now input.now }
    ensures tag { result ≡ DONE
        → tag.new ≡ nist.tag (round_keys_in gcm.now) nonce.now additional.now output.new }
    ensures untouched { result ≢ DONE → output.new ≡ output.old }
    ensures untouched_tag { result ≢ DONE → tag.new ≡ tag.old }
{
    if input.len() != output.len() {
        return UNEQUAL_LENGTHS;
    }
    let status = refusal(gcm, nonce.len(), additional.len(), input.len());
    if status != DONE {
        return status;
    }
    copy(input, output);
    fotsgure_gcm_seal(gcm, nonce, additional, output, tag)
}

/// Decrypts from one buffer to another as `fotsgure_gcm_open` does in place, if the tag is right
/// (SP 800-38D, 7.2). The tag is compared before anything is written. Returns `UNEQUAL_LENGTHS`
/// exactly if the buffers differ in length, and else what `fotsgure_gcm_open` returns. After
/// `REFUSED` the output is zeros.
#[unsafe(no_mangle)]
pub extern "C" fn fotsgure_gcm_open_to(
    gcm: &Gcm,
    nonce: &[u8],
    additional: &[u8],
    input: &[u8],
    output: &mut [u8],
    tag: &[u8],
) -> u32
    requires made { IsMade gcm.now }
    ensures unequal { result ≡ UNEQUAL_LENGTHS ↔ (length input.now ≢ length output.old) }
    ensures tag_length { result ≡ TAG_LENGTH ↔ (length input.now ≡ length output.old)
        × (length tag.now ≢ 16) }
    ensures nonce_length { result ≡ NONCE_LENGTH ↔ (length input.now ≡ length output.old)
        × ((length tag.now ≡ 16) × ¬ IsNonceLength (length nonce.now)) }
    ensures too_long { result ≡ TOO_LONG ↔ (length input.now ≡ length output.old)
        × ((length tag.now ≡ 16) × (IsNonceLength (length nonce.now)
        × IsTooLong (length additional.now) (length input.now))) }
    ensures no_key { result ≡ NO_KEY ↔ (length input.now ≡ length output.old)
        × ((length tag.now ≡ 16) × (IsNonceLength (length nonce.now)
        × (IsHashedLength (length additional.now)
        × (IsTextLength (length input.now) × ¬ HoldsKey gcm.now.key)))) }
    ensures done { result ≡ DONE ↔ (length input.now ≡ length output.old)
        × ((length tag.now ≡ 16) × (IsNonceLength (length nonce.now)
        × (IsHashedLength (length additional.now)
        × (IsTextLength (length input.now) × (HoldsKey gcm.now.key
        × (tag.now ≡ nist.tag (round_keys_in gcm.now) nonce.now additional.now input.now)))))) }
    ensures refused { result ≢ DONE → result ≢ UNEQUAL_LENGTHS → result ≢ TAG_LENGTH
        → result ≢ NONCE_LENGTH → result ≢ TOO_LONG
        → result ≢ NO_KEY → result ≡ REFUSED }
    ensures decrypted { result ≡ DONE → output.new
        ≡ nist.text (round_keys_in gcm.now) nonce.now input.now }
    ensures zeros { result ≡ REFUSED → output.new ≡ replicate (length output.old) 0 }
    ensures untouched { result ≢ DONE → result ≢ REFUSED → output.new ≡ output.old }
{
    if input.len() != output.len() {
        return UNEQUAL_LENGTHS;
    }
    if tag.len() != 16 {
        return TAG_LENGTH;
    }
    let status = refusal(gcm, nonce.len(), additional.len(), input.len());
    if status != DONE {
        return status;
    }
    let mut claimed = [0; 16];
    claimed.copy_from_slice(tag);
    let mode = mode_of(gcm);
    match mode.decrypt_to(nonce, additional, input, output, &claimed) {
        Ok(()) => DONE,
        Err(_) => REFUSED,
    }
}
