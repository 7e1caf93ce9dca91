//! Messages of AES-GCM-SIV, from one buffer to another.

ghost use Rattle.std.specs.Prelude.{◌≡◌, ◌≢◌, ◌↔◌, length, replicate};
ghost use Rattle.gcm_siv.specs.GcmSiv as rfc;
ghost use Rattle.gcm_siv.specs.GcmSiv.{IsAuthentic};
ghost use Rattle.gcm_c.specs.Form.{key_in};
ghost use Rattle.gcm_c.specs.Siv.{HoldsSivKey, IsSivMade, IsSivLength, IsSivTooLong};

use crate::siv::{fotsgure_gcm_siv_open, fotsgure_gcm_siv_seal, siv_refusal};
use crate::siv_kept::Siv;
use crate::status::{DONE, NO_KEY, REFUSED, TOO_LONG, UNEQUAL_LENGTHS};

/// Encrypts from one buffer to another as `fotsgure_gcm_siv_seal` does in place (RFC 8452, 4).
/// Returns `UNEQUAL_LENGTHS` exactly if the buffers differ in length, and else what
/// `fotsgure_gcm_siv_seal` returns.
#[unsafe(no_mangle)]
pub extern "C" fn fotsgure_gcm_siv_seal_to(
    siv: &Siv,
    nonce: &[u8; 12],
    additional: &[u8],
    input: &[u8],
    output: &mut [u8],
    tag: &mut [u8; 16],
) -> u32
    requires made { IsSivMade siv.now }
    ensures unequal { result ≡ UNEQUAL_LENGTHS ↔ (length input.now ≢ length output.old) }
    ensures too_long { result ≡ TOO_LONG ↔ (length input.now ≡ length output.old)
        × IsSivTooLong (length additional.now) (length input.now) }
    ensures done { result ≡ DONE ↔ (length input.now ≡ length output.old)
        × (IsSivLength (length additional.now) × (IsSivLength (length input.now)
        × HoldsSivKey siv.now)) }
    ensures refused { result ≢ DONE → result ≢ UNEQUAL_LENGTHS → result ≢ TOO_LONG
        → result ≡ NO_KEY }
    ensures tag { result ≡ DONE
        → tag.new ≡ rfc.tag (key_in siv.now) nonce.now additional.now input.now }
    ensures encrypted { result ≡ DONE → output.new
        ≡ rfc.text (key_in siv.now) nonce.now tag.new input.now }
    ensures untouched { result ≢ DONE → output.new ≡ output.old }
    ensures untouched_tag { result ≢ DONE → tag.new ≡ tag.old }
{
    if input.len() != output.len() {
        return UNEQUAL_LENGTHS;
    }
    let status = siv_refusal(siv, additional.len(), input.len());
    if status != DONE {
        return status;
    }
    output.copy_from_slice(input);
    fotsgure_gcm_siv_seal(siv, nonce, additional, output, tag)
}

/// Decrypts from one buffer to another as `fotsgure_gcm_siv_open` does in place, if the tag is
/// right (RFC 8452, 5). Returns `UNEQUAL_LENGTHS` exactly if the buffers differ in length, and else
/// what `fotsgure_gcm_siv_open` returns. After `REFUSED` the output is zeros.
#[unsafe(no_mangle)]
pub extern "C" fn fotsgure_gcm_siv_open_to(
    siv: &Siv,
    nonce: &[u8; 12],
    additional: &[u8],
    input: &[u8],
    output: &mut [u8],
    tag: &[u8; 16],
) -> u32
    requires made { IsSivMade siv.now }
    ensures unequal { result ≡ UNEQUAL_LENGTHS ↔ (length input.now ≢ length output.old) }
    ensures too_long { result ≡ TOO_LONG ↔ (length input.now ≡ length output.old)
        × IsSivTooLong (length additional.now) (length input.now) }
    ensures no_key { result ≡ NO_KEY ↔ (length input.now ≡ length output.old)
        × (IsSivLength (length additional.now) × (IsSivLength (length input.now)
        × ¬ HoldsSivKey siv.now)) }
    ensures done { result ≡ DONE ↔ (length input.now ≡ length output.old)
        × (IsSivLength (length additional.now) × (IsSivLength (length input.now)
        × (HoldsSivKey siv.now
        × IsAuthentic (key_in siv.now) nonce.now additional.now tag.now input.now))) }
    ensures refused { result ≢ DONE → result ≢ UNEQUAL_LENGTHS → result ≢ TOO_LONG
        → result ≢ NO_KEY → result ≡ REFUSED }
    ensures decrypted { result ≡ DONE → output.new
        ≡ rfc.text (key_in siv.now) nonce.now tag.now input.now }
    ensures zeros { result ≡ REFUSED → output.new ≡ replicate (length output.old) 0 }
    ensures untouched { result ≢ DONE → result ≢ REFUSED → output.new ≡ output.old }
{
    if input.len() != output.len() {
        return UNEQUAL_LENGTHS;
    }
    let status = siv_refusal(siv, additional.len(), input.len());
    if status != DONE {
        return status;
    }
    output.copy_from_slice(input);
    let opened = fotsgure_gcm_siv_open(siv, nonce, additional, output, tag);
    if opened != DONE {
        output.fill(0);
    }
    opened
}
