//! The types of all crates by the forms of their round keys. What is tried with each of them is
//! written and proved once.

use aes::Fixsliced;
use aes_cipher::aes::{
    AesCipher, Bits128, Bits192, Bits256, BothWays, Decrypts, Encrypts, KeySize, MadeFrom,
};
use aes_cipher::cipher::{BlockCipherDecrypt, BlockCipherEncrypt, Decrypt, Encrypt, KeyInit};
use aes_hybrid::widths::{Width, Width128, Width256};
use aes_hybrid::{BothWaysKeys, EncryptionKeys};
use standards::keys::{
    BY_128, BY_192, BY_256, KEY_128, KEY_192, KEY_256, ZEROS_BY_128, ZEROS_BY_192, ZEROS_BY_256,
};
use std::marker::PhantomData;
use std::process::Abort;
use std::test::Fail;

/// The forms of the three types that a crate has for a size of keys.
pub trait Forms {
    /// The form of the type for both directions.
    type Both: Encrypts + Decrypts + MadeFrom<Self::Enc>;

    /// The form of the type that encrypts.
    type Enc: Encrypts;

    /// The form of the type that decrypts.
    type Dec: Decrypts + MadeFrom<Self::Enc>;
}

/// The type of a crate for both directions.
pub type Both<F> = AesCipher<<F as Forms>::Both, BothWays>;

/// The type of a crate that encrypts.
pub type Enc<F> = AesCipher<<F as Forms>::Enc, Encrypt>;

/// The type of a crate that decrypts.
pub type Dec<F> = AesCipher<<F as Forms>::Dec, Decrypt>;

// The forms of `aes`.
struct Planes<K> {
    size: PhantomData<K>,
}

impl<K: KeySize> Forms for Planes<K> {
    type Both = Fixsliced<K>;

    type Enc = Fixsliced<K>;

    type Dec = Fixsliced<K>;
}

// The forms of `aes_hybrid`, in one width.
struct Hybrids<K, W> {
    size: PhantomData<K>,
    width: PhantomData<W>,
}

impl<K: KeySize, W: Width> Forms for Hybrids<K, W> {
    type Both = BothWaysKeys<K, W>;

    type Enc = EncryptionKeys<K, W>;

    type Dec = BothWaysKeys<K, W>;
}

/// What is known of a size of keys from outside.
#[derive(Drop)]
pub struct Known {
    /// The name of the type for both directions.
    pub name: &'static str,
    /// The key of FIPS 197, appendix C.
    pub key: &'static [u8],
    /// The encryption of the block of appendix C under that key.
    pub encrypted: u128,
    /// A block of zeros under the key of zeros.
    pub zeros: u128,
}

/// What is tried with the types of each crate.
pub trait Trial {
    /// Whether the types for a size pass.
    fn passes<F: Forms>(&self, known: &Known) -> Result<bool, Fail>;
}

// Asserts that the types for a size pass: those of `aes`, and of `aes_hybrid` in both widths. With
// the size as a parameter, they are proved once for all sizes.
fn try_size<T: Trial, K: KeySize>(rt: &impl Abort, trial: &T, known: &Known) -> Result<(), Fail> {
    let passed = [
        trial.passes::<Planes<K>>(known)?,
        trial.passes::<Hybrids<K, Width128>>(known)?,
        trial.passes::<Hybrids<K, Width256>>(known)?,
    ];
    assert!(rt; passed == [true; 3], "{}", known.name);
    Ok(())
}

/// Asserts that all types pass.
pub fn try_all<T: Trial>(rt: &impl Abort, trial: &T) -> Result<(), Fail> {
    let short = Known {
        name: "Aes128",
        key: &KEY_128,
        encrypted: BY_128,
        zeros: ZEROS_BY_128,
    };
    try_size::<T, Bits128>(rt, trial, &short)?;
    let middle = Known {
        name: "Aes192",
        key: &KEY_192,
        encrypted: BY_192,
        zeros: ZEROS_BY_192,
    };
    try_size::<T, Bits192>(rt, trial, &middle)?;
    let long = Known {
        name: "Aes256",
        key: &KEY_256,
        encrypted: BY_256,
        zeros: ZEROS_BY_256,
    };
    try_size::<T, Bits256>(rt, trial, &long)
}

/// What is tried with the three ciphers of a key.
pub trait CipherTrial {
    /// Whether the ciphers pass.
    fn passes<B, E, D>(&self, both: &B, encrypts: &E, decrypts: &D) -> bool
    where
        B: BlockCipherEncrypt + BlockCipherDecrypt,
        E: BlockCipherEncrypt,
        D: BlockCipherDecrypt;
}

/// Whether the three types pass under a key.
pub fn pass_under<F: Forms, T: CipherTrial>(key: &[u8], trial: &T) -> bool {
    let (Ok(both), Ok(encrypts), Ok(decrypts)) = (
        Both::<F>::new_from_slice(key),
        Enc::<F>::new_from_slice(key),
        Dec::<F>::new_from_slice(key),
    ) else {
        return false;
    };
    trial.passes(&both, &encrypts, &decrypts)
}
