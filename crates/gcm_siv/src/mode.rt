//! Messages under a key-generating key. Each call derives the keys of its nonce, and wipes them.

ghost use Rattle.std.specs.Prelude.{◌≡◌, ◌↔◌, ◌⊎◌, ℕ, List, ◌^◌, ◌<◌, ◌≤◌, length};
ghost use Rattle.std.specs.Prelude.{IsOk, IsErr, IfOk, OnOk, OnErr};
ghost use Rattle.gcm_siv.specs.GcmSiv as rfc;
ghost use Rattle.gcm_siv.specs.GcmSiv.{IsAuthentic, IsSivKeySize};

use crate::course::{open_message, seal_message};
use crate::errors::{Refused, TooLong};
use crate::lengths::are_allowed;
use crate::message_key::MadeCipher;
use aes_cipher::cipher::{Block, BlockCipherEncrypt, KeyInit};
use aes_cipher::not_clone::NotClone;
use aes_cipher::zeroize::ZeroizeOnDrop;
use std::marker::Model;

/// AES-GCM-SIV over a cipher of the key-generating key (RFC 8452), with nonces of 12 bytes and tags
/// of 16. Contracts see a value as that key.
#[derive(Drop)]
pub struct GcmSiv<C: KeyInit + BlockCipherEncrypt + Drop> {
    cipher: C,
}

impl<C: KeyInit + BlockCipherEncrypt + Drop> Model for GcmSiv<C> {
    ghost Value = { List ℕ };

    ghost view = { λ mode. C.own_key mode.cipher };

    ghost invariant = { λ mode. IsSivKeySize C.KEY_SIZE };
}

impl<C: KeyInit + BlockCipherEncrypt + Drop> NotClone for GcmSiv<C> {}

impl<C: KeyInit + BlockCipherEncrypt + Drop> GcmSiv<C> {
    /// Makes AES-GCM-SIV over the cipher of a key of 16 or 32 bytes.
    pub fn new(cipher: C) -> Self
        requires { IsSivKeySize C.KEY_SIZE }
        ensures { result ≡ C.own_key cipher }
    {
        GcmSiv { cipher }
    }

    /// Encrypts a text in place, and returns the tag, which shows whether the text or the
    /// additional data was changed (4). Draw the nonce at random. If a nonce comes again, it shows
    /// whether the two messages are the same.
    ///
    /// # Errors
    ///
    /// `TooLong` exactly if the text or the additional data has more than 2^36 bytes; the text is
    /// then unchanged.
    pub fn encrypt(
        &self,
        nonce: &[u8; 12],
        additional: &[u8],
        text: &mut [u8],
    ) -> Result<Block, TooLong>
        ensures refusal { IsErr result ↔ ((2 ^ 36 < length text.old)
            ⊎ (2 ^ 36 < length additional.now)) }
        ensures tag { IfOk result
            (λ tag. tag ≡ rfc.tag self.now nonce.now additional.now text.old) }
        ensures encrypted { IfOk result (λ tag. text.new
            ≡ rfc.text self.now nonce.now tag text.old) }
        ensures untouched { OnErr result (text.new ≡ text.old) }
    {
        if !are_allowed(additional, text) {
            return Err(TooLong);
        }
        self.cipher.key_has_its_size();
        Ok(seal_message::<C, MadeCipher<C>>(&self.cipher, C::KEY_SIZE, nonce, additional, text))
    }

    /// Decrypts a text in place if the tag is right (5). The tag can be computed only when the text
    /// is decrypted, and is compared without an early exit. A text that is refused is encrypted
    /// again.
    ///
    /// # Errors
    ///
    /// `Refused` exactly if the tag is not that of the additional data and the text, or if
    /// `encrypt` refuses such lengths; the text is then unchanged.
    pub fn decrypt(
        &self,
        nonce: &[u8; 12],
        additional: &[u8],
        text: &mut [u8],
        tag: &Block,
    ) -> Result<(), Refused>
        ensures accepted { IsOk result ↔ ((length text.old ≤ 2 ^ 36)
            × ((length additional.now ≤ 2 ^ 36)
            × IsAuthentic self.now nonce.now additional.now tag.now text.old)) }
        ensures decrypted { OnOk result (text.new ≡ rfc.text self.now nonce.now tag.now text.old) }
        ensures untouched { OnErr result (text.new ≡ text.old) }
    {
        if !are_allowed(additional, text) {
            return Err(Refused);
        }
        self.cipher.key_has_its_size();
        let is_right = open_message::<C, MadeCipher<C>>(
            &self.cipher,
            C::KEY_SIZE,
            nonce,
            additional,
            text,
            tag,
        );
        if is_right { Ok(()) } else { Err(Refused) }
    }
}

impl<C: KeyInit + BlockCipherEncrypt + ZeroizeOnDrop + Drop> ZeroizeOnDrop for GcmSiv<C> {}
