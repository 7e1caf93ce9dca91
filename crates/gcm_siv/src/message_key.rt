//! The key of a message, in room that is zeroed before and after.

ghost use Rattle.std.specs.Prelude.{◌≡◌, ℕ, List, length, None, IsSome};
ghost use Rattle.aes_planes.specs.Fips197 as fips;
ghost use Rattle.gcm_siv.specs.GcmSiv.{counter_mode, IsSivKeySize};
ghost use Rattle.gcm_siv.specs.Private.{key_of_some};

use crate::counters::add_keystream;
use crate::hash::PolyvalRoom;
use aes_cipher::cipher::{Block, BlockCipherEncrypt, KeyInit};
use aes_cipher::zeroize::Zeroize;
use gcm::{MultiplesRoom, TableRoom};

/// Room for the key of a message. Once the key is set, the room encrypts under it.
pub trait MessageKey: Zeroize {
    /// Room for what makes the tag of a short message.
    type ShortRoom: PolyvalRoom;

    /// Room for what makes the tag of a longer message.
    type LongRoom: PolyvalRoom;

    /// How many bytes a key for this room may have.
    ghost IsAllowed: { ℕ → Type 0 };

    /// The room holds a key.
    ghost IsSet: { Self → Type 0 };

    /// The key that it holds.
    ghost own_key: { Self → List ℕ };

    /// Sets a key. Nothing of what the room held before is left.
    fn set(&mut self, key: &[u8])
        requires size { IsSivKeySize (length key.now) }
        requires allowed { IsAllowed (length key.now) }
        ensures set { IsSet self.new }
        ensures key { own_key self.new ≡ key.now };

    /// Encrypts a block in place (AES, RFC 8452, 4).
    fn encrypt_block(&self, block: &mut Block)
        requires { IsSet self.now }
        ensures { block.new ≡ fips.cipher_with (fips.key_expansion (own_key self.now)) block.old };

    /// Adds the keystream to bytes, from an initial counter block on (AES_CTR, RFC 8452, 4).
    fn add_keystream(&self, start: &Block, bytes: &mut [u8])
        requires { IsSet self.now }
        ensures { bytes.new ≡ counter_mode
            (fips.key_expansion (own_key self.now)) start.now bytes.old };
}

/// A cipher that is made for a message, and dropped after it.
#[derive(Drop)]
pub(crate) struct MadeCipher<C: KeyInit + BlockCipherEncrypt + Drop> {
    cipher: Option<C>,
}

impl<C: KeyInit + BlockCipherEncrypt + Drop> Zeroize for MadeCipher<C> {
    ghost ZERO = { record { cipher = None } };

    #[inline(always)]
    fn zero() -> MadeCipher<C> {
        MadeCipher { cipher: None }
    }

    #[inline(always)]
    fn zeroize(&mut self) {
        self.cipher = None;
    }
}

impl<C: KeyInit + BlockCipherEncrypt + Drop> MessageKey for MadeCipher<C> {
    type ShortRoom = TableRoom;

    type LongRoom = MultiplesRoom;

    ghost IsAllowed = { λ bytes. bytes ≡ C.KEY_SIZE };

    ghost IsSet = { λ made. IsSome made.cipher };

    ghost own_key = { λ made. key_of_some C.own_key made.cipher };

    #[tactic(auto, unfolding(crate::specs::Private::key_of_some))]
    #[inline(always)]
    fn set(&mut self, key: &[u8]) {
        match C::new_from_slice(key) {
            Ok(cipher) => self.cipher = Some(cipher),
            Err(_) => unreachable!(),
        }
    }

    #[inline(always)]
    fn encrypt_block(&self, block: &mut Block) {
        match &self.cipher {
            Some(cipher) => cipher.encrypt_block(block),
            None => unreachable!(),
        }
    }

    #[inline(always)]
    fn add_keystream(&self, start: &Block, bytes: &mut [u8]) {
        match &self.cipher {
            Some(cipher) => add_keystream(cipher, start, bytes),
            None => unreachable!(),
        }
    }
}
