//! Encryption and decryption.

ghost use Rattle.std.specs.Prelude.{◌≡◌, ◌↔◌, ◌<◌, ◌≤◌, ◌%◌, length, IsErrOf, IsOk, OnErr, OnOk};
ghost use Rattle.ccm.specs.Ccm as nist;
ghost use Rattle.ccm.specs.Ccm.{Fits, IsNonceLength, IsTagLength};

use crate::errors::{InvalidMessage, NotDecrypted};
use crate::formatting::check;
use crate::message::{is_tag, process_text, put_tag};
use aes_cipher::cipher::BlockCipherEncrypt;

/// Encrypts a text in place, and writes the tag, which shows whether the text or the additional
/// data was changed (SP 800-38C, 6.1). Never use a nonce twice under a key. The lengths of tags and
/// nonces are fixed with the key, and the key is used for CCM alone.
///
/// # Errors
///
/// `TagLength` exactly if the tag doesn't have 4, 6, 8, 10, 12, 14 or 16 bytes. Else `NonceLength`
/// exactly if the nonce doesn't have 7 to 13 bytes. Else `TooLong` exactly if the text has 2^(8 (15
/// - n)) bytes or more, where n is how many the nonce has. Text and tag are then unchanged.
#[tactic(auto, unfolding(crate::specs::Ccm::tag))]
#[inline(never)]
pub fn encrypt<C: BlockCipherEncrypt>(
    cipher: &C,
    nonce: &[u8],
    additional: &[u8],
    text: &mut [u8],
    tag: &mut [u8],
) -> Result<(), InvalidMessage>
    ensures tag_length { IsErrOf result InvalidMessage.TagLength ↔ ¬ IsTagLength (length tag.old) }
    ensures nonce_length { IsErrOf result InvalidMessage.NonceLength
        ↔ IsTagLength (length tag.old) × ¬ IsNonceLength (length nonce.now) }
    ensures too_long { IsErrOf result InvalidMessage.TooLong
        ↔ IsTagLength (length tag.old) × (IsNonceLength (length nonce.now)
        × ¬ Fits (length nonce.now) (length text.old)) }
    ensures done { IsOk result ↔ IsTagLength (length tag.old) × (IsNonceLength (length nonce.now)
        × Fits (length nonce.now) (length text.old)) }
    ensures encrypted { OnOk result
        (text.new ≡ nist.text (C.round_keys cipher.now) nonce.now text.old) }
    ensures tag { OnOk result (tag.new ≡ nist.tag (C.round_keys cipher.now) nonce.now
        (length tag.old) additional.now text.old) }
    ensures untouched { OnErr result (text.new ≡ text.old) }
    ensures untouched_tag { OnErr result (tag.new ≡ tag.old) }
{
    check(nonce.len(), text.len(), tag.len())?;
    let mut whole = [0; 16];
    put_tag(cipher, nonce, tag.len(), additional, text, &mut whole);
    tag.copy_from_slice(&whole[..tag.len()]);
    process_text(cipher, nonce, text);
    Ok(())
}

/// Decrypts a text in place if the tag is right (6.2). The tag can be computed only when the text
/// is decrypted, and is compared without an early exit. A text that is refused is encrypted again.
///
/// # Errors
///
/// `Invalid` exactly as `encrypt`. Else `Refused` exactly if the tag is not that of the nonce, the
/// additional data and the text. The text is then unchanged.
#[tactic(auto, using(crate::proofs::Counters::text_twice))]
#[inline(never)]
pub fn decrypt<C: BlockCipherEncrypt>(
    cipher: &C,
    nonce: &[u8],
    additional: &[u8],
    text: &mut [u8],
    tag: &[u8],
) -> Result<(), NotDecrypted>
    ensures tag_length { IsErrOf result (NotDecrypted.Invalid InvalidMessage.TagLength)
        ↔ ¬ IsTagLength (length tag.now) }
    ensures nonce_length { IsErrOf result (NotDecrypted.Invalid InvalidMessage.NonceLength)
        ↔ IsTagLength (length tag.now) × ¬ IsNonceLength (length nonce.now) }
    ensures too_long { IsErrOf result (NotDecrypted.Invalid InvalidMessage.TooLong)
        ↔ IsTagLength (length tag.now) × (IsNonceLength (length nonce.now)
        × ¬ Fits (length nonce.now) (length text.old)) }
    ensures accepted { IsOk result ↔ IsTagLength (length tag.now)
        × (IsNonceLength (length nonce.now) × (Fits (length nonce.now) (length text.old)
        × (tag.now ≡ nist.tag (C.round_keys cipher.now) nonce.now (length tag.now) additional.now
        (nist.text (C.round_keys cipher.now) nonce.now text.old)))) }
    ensures decrypted { OnOk result
        (text.new ≡ nist.text (C.round_keys cipher.now) nonce.now text.old) }
    ensures untouched { OnErr result (text.new ≡ text.old) }
{
    if let Err(invalid) = check(nonce.len(), text.len(), tag.len()) {
        return Err(NotDecrypted::Invalid(invalid));
    }
    process_text(cipher, nonce, text);
    if is_tag(cipher, nonce, additional, text, tag) {
        return Ok(());
    }
    process_text(cipher, nonce, text);
    Err(NotDecrypted::Refused)
}
