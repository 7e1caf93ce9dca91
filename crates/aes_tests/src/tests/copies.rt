//! Making values from keys and from other values, and wiping them.

use super::forms::{Both, Dec, Enc, Forms, Known, Trial, try_all};
use aes_cipher::cipher::{
    BlockCipherDecrypt, BlockCipherEncrypt, BlockSizeUser, KeyInit, KeySizeUser,
};
use aes_cipher::zeroize::ZeroizeOnDrop;
use standards::keys::PLAIN;
use std::test::Fail;

// Whether slices of 0 to 64 bytes are accepted as keys exactly if they are as long as a key, and
// blocks have 16 bytes. The bound requires the mark of types that are wiped when they are dropped.
fn takes_its_own_length_alone<C>(size: usize) -> bool
where
    C: KeyInit + BlockSizeUser + ZeroizeOnDrop + Drop,
{
    let bytes = [7; 64];
    let mut right = C::KEY_SIZE == size && C::BLOCK_SIZE == 16;
    for length in 0..=bytes.len() {
        right &= C::new_from_slice(&bytes[..length]).is_ok() == (length == size);
    }
    right
}

struct Lengths;

impl Trial for Lengths {
    fn passes<F: Forms>(&self, known: &Known) -> Result<bool, Fail> {
        let size = known.key.len();
        Ok(
            takes_its_own_length_alone::<Both<F>>(size)
                && takes_its_own_length_alone::<Enc<F>>(size)
                && takes_its_own_length_alone::<Dec<F>>(size),
        )
    }
}

#[test]
fn takes_slices_of_the_key_size_alone(rt: HostRuntime) -> Result<(), Fail> {
    try_all(&rt, &Lengths)
}

/// Whether the block of FIPS 197, appendix C, goes to its encryption.
pub fn encrypts<C: BlockCipherEncrypt>(cipher: &C, encrypted: u128) -> bool {
    let mut block = PLAIN.to_be_bytes();
    cipher.encrypt_block(&mut block);
    u128::from_be_bytes(block) == encrypted
}

/// Whether that block's encryption is decrypted to it.
pub fn decrypts<C: BlockCipherDecrypt>(cipher: &C, encrypted: u128) -> bool {
    let mut block = encrypted.to_be_bytes();
    cipher.decrypt_block(&mut block);
    u128::from_be_bytes(block) == PLAIN
}

// Whether a value that encrypts, two that do both, two that decrypt, and clones of these have the
// key.
fn keep_the_key<E, B, D>(
    enc: &E,
    (lent_both, both): (&B, &B),
    (lent_dec, dec): (&D, &D),
    encrypted: u128,
) -> Result<bool, Fail>
where
    E: BlockCipherEncrypt,
    B: BlockCipherEncrypt + BlockCipherDecrypt + Clone + Drop,
    D: BlockCipherDecrypt + Clone + Drop,
{
    Ok(
        encrypts(enc, encrypted)
            && decrypts(lent_dec, encrypted)
            && decrypts(&dec.clone()?, encrypted)
            && encrypts(lent_both, encrypted)
            && decrypts(lent_both, encrypted)
            && encrypts(&both.clone()?, encrypted)
            && decrypts(both, encrypted),
    )
}

// Clones of the three types of a key, and conversions between them. Most are used after the value
// that they came from is dropped.
struct Copies;

impl Trial for Copies {
    fn passes<F: Forms>(&self, known: &Known) -> Result<bool, Fail> {
        let Ok(enc) = Enc::<F>::new_from_slice(known.key) else {
            return Ok(false);
        };
        let copy = enc.clone()?;
        let lent_dec = Dec::<F>::from(&enc);
        let lent_both = Both::<F>::from(&enc);
        let dec = Dec::<F>::from(enc);
        let both = Both::<F>::from(copy.clone()?);
        keep_the_key(
            &copy,
            (&lent_both, &both),
            (&lent_dec, &dec),
            known.encrypted,
        )
    }
}

// FIPS 197, appendix C.
#[test]
fn clones_and_converts(rt: HostRuntime) -> Result<(), Fail> {
    try_all(&rt, &Copies)
}

// Whether a wiped value works as one of the zero key, there and back on a block of zeros.
struct Wipes;

impl Trial for Wipes {
    fn passes<F: Forms>(&self, known: &Known) -> Result<bool, Fail> {
        let Ok(mut enc) = Enc::<F>::new_from_slice(known.key) else {
            return Ok(false);
        };
        let mut dec = Dec::<F>::from(&enc);
        enc.zeroize();
        dec.zeroize();
        let mut block = [0; 16];
        enc.encrypt_block(&mut block);
        let encrypted = u128::from_be_bytes(block);
        dec.decrypt_block(&mut block);
        Ok(encrypted == known.zeros && block == [0; 16])
    }
}

#[test]
fn leaves_the_zero_key_after_a_wipe(rt: HostRuntime) -> Result<(), Fail> {
    try_all(&rt, &Wipes)
}
