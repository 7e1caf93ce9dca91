//! The wrapping function W and its inverse (SP 800-38F, 6.1), in place: six turns over the
//! semiblocks of a key. If a string has too few semiblocks for W, a call of the cipher replaces W.

ghost use Rattle.std.specs.Prelude.{◌≡◌, ◌+◌, ◌*◌, ◌^◌, ◌<◌, ◌≤◌, List, ℕ, ◌∷◌, ◌++◌, drop, length};
ghost use Rattle.std.specs.Prelude.{take};
ghost use Rattle.aes_planes.specs.Fips197 as fips;
ghost use Rattle.key_wrap.specs.KeyWrap.{number_added, unwrapped_from, wrapped_after};
ghost use Rattle.key_wrap.specs.Padded.{unwrapped_string, wrapped_string};

use aes_cipher::blocks::{block_of_halves, halves_of_block};
use aes_cipher::cipher::{BlockCipherDecrypt, BlockCipherEncrypt};
use aes_cipher::zeroize::zeroize_elements;

/// Half of a block.
pub type Semiblock = [u8; 8];

// Adds a number to a semiblock, whose first byte is the highest.
#[tactic(auto, unfolding(crate::specs::KeyWrap::number_added))]
#[inline(always)]
fn add_number(semiblock: &Semiblock, number: u64) -> Semiblock
    ensures { result ≡ number_added semiblock.now number }
{
    (u64::from_be_bytes(*semiblock) ^ number).to_be_bytes()
}

// Encrypts the block that two semiblocks form.
fn encrypt_halves<C: BlockCipherEncrypt>(cipher: &C, first: &mut Semiblock, second: &mut Semiblock)
    ensures first { let b = fips.cipher_with (C.round_keys cipher.now) (first.old ++ second.old) in
        first.new ≡ take 8 b }
    ensures second { let b = fips.cipher_with (C.round_keys cipher.now) (first.old ++ second.old) in
        second.new ≡ drop 8 b }
{
    let mut block = block_of_halves(first, second);
    cipher.encrypt_block(&mut block);
    let (high, low) = halves_of_block(&block);
    *first = high;
    *second = low;
}

// One step of W: `semiblock` is the one whose turn it is.
fn wrap_step<C: BlockCipherEncrypt>(
    cipher: &C,
    check: &mut Semiblock,
    semiblock: &mut Semiblock,
    number: u64,
)
    ensures check { let b =
        fips.cipher_with (C.round_keys cipher.now) (check.old ++ semiblock.old) in
        check.new ≡ number_added (take 8 b) number }
    ensures semiblock { let b =
        fips.cipher_with (C.round_keys cipher.now) (check.old ++ semiblock.old) in
        semiblock.new ≡ drop 8 b }
{
    encrypt_halves(cipher, check, semiblock);
    *check = add_number(check, number);
}

// The steps of W with each semiblock once.
fn wrap_turn<C: BlockCipherEncrypt>(
    cipher: &C,
    check: &mut Semiblock,
    others: &mut [Semiblock],
    turn: u64,
)
    requires turn { turn < 6 }
    requires few { length others.old < 2 ^ 54 }
    ensures { let m = length others.old in let w = C.round_keys cipher.now in (s : List (List ℕ)) →
        wrapped_after w s (turn * m) ≡ check.old ∷ others.old →
        wrapped_after w s (turn * m + m) ≡ check.new ∷ others.new }
{
    let before = turn * others.len() as u64;
    for i in 0..others.len() {
        wrap_step(cipher, check, &mut others[i], before + i as u64 + 1);
    }
}

/// W: `check` is the first semiblock, and `others` are the other ones.
pub(crate) fn wrap_in_place<C: BlockCipherEncrypt>(
    cipher: &C,
    check: &mut Semiblock,
    others: &mut [Semiblock],
)
    requires few { length others.old < 2 ^ 54 }
    ensures { let w = C.round_keys cipher.now in
        check.new ∷ others.new ≡ wrapped_after w (check.old ∷ others.old) (6 * length others.old) }
{
    for turn in 0..6 {
        wrap_turn(cipher, check, others, turn);
    }
}

// Decrypts the block that two semiblocks form. The block is then overwritten, since half of it can
// be a piece of a key.
fn decrypt_halves<C: BlockCipherDecrypt>(cipher: &C, first: &mut Semiblock, second: &mut Semiblock)
    ensures first { let b =
        fips.inv_cipher_with (C.round_keys cipher.now) (first.old ++ second.old) in
        first.new ≡ take 8 b }
    ensures second { let b =
        fips.inv_cipher_with (C.round_keys cipher.now) (first.old ++ second.old) in
        second.new ≡ drop 8 b }
{
    let mut room = [block_of_halves(first, second)];
    cipher.decrypt_block(&mut room[0]);
    let (high, low) = halves_of_block(&room[0]);
    *first = high;
    *second = low;
    zeroize_elements(&mut room);
}

// One step of the inverse of W.
fn unwrap_step<C: BlockCipherDecrypt>(
    cipher: &C,
    check: &mut Semiblock,
    semiblock: &mut Semiblock,
    number: u64,
)
    ensures check { let b =
        fips.inv_cipher_with (C.round_keys cipher.now)
        (number_added check.old number ++ semiblock.old) in
        check.new ≡ take 8 b }
    ensures semiblock { let b =
        fips.inv_cipher_with (C.round_keys cipher.now)
        (number_added check.old number ++ semiblock.old) in
        semiblock.new ≡ drop 8 b }
{
    *check = add_number(check, number);
    decrypt_halves(cipher, check, semiblock);
}

// The steps of the inverse with each semiblock once, from the last on.
fn unwrap_turn<C: BlockCipherDecrypt>(
    cipher: &C,
    check: &mut Semiblock,
    others: &mut [Semiblock],
    turn: u64,
)
    requires turn { turn < 6 }
    requires few { length others.old < 2 ^ 54 }
    ensures { let m = length others.old in let w = C.round_keys cipher.now in
        unwrapped_from w (check.new ∷ others.new) (turn * m)
        ≡ unwrapped_from w (check.old ∷ others.old) (turn * m + m) }
{
    let before = turn * others.len() as u64;
    for k in 0..others.len() {
        let i = others.len() - 1 - k;
        unwrap_step(cipher, check, &mut others[i], before + i as u64 + 1);
    }
}

/// The inverse of W: `check` is the first semiblock, and `others` are the other ones.
pub(crate) fn unwrap_in_place<C: BlockCipherDecrypt>(
    cipher: &C,
    check: &mut Semiblock,
    others: &mut [Semiblock],
)
    requires few { length others.old < 2 ^ 54 }
    ensures { let w = C.round_keys cipher.now in
        check.new ∷ others.new ≡ unwrapped_from w (check.old ∷ others.old) (6 * length others.old) }
{
    for k in 0..6 {
        unwrap_turn(cipher, check, others, 5 - k);
    }
}

/// Wraps a string in place: `check` is its first semiblock, and `others` are the other ones. W is
/// for three semiblocks or more. Two are one block, which a call of the cipher encrypts (6.3).
pub(crate) fn wrap_string<C: BlockCipherEncrypt>(
    cipher: &C,
    check: &mut Semiblock,
    others: &mut [Semiblock],
)
    requires some { 1 ≤ length others.old }
    requires few { length others.old < 2 ^ 54 }
    ensures { check.new ∷ others.new ≡ wrapped_string (C.round_keys cipher.now)
        (check.old ∷ others.old) }
{
    if others.len() == 1 {
        encrypt_halves(cipher, check, &mut others[0]);
    } else {
        wrap_in_place(cipher, check, others);
    }
}

/// Unwraps a string in place: the inverse of `wrap_string`.
pub(crate) fn unwrap_string<C: BlockCipherDecrypt>(
    cipher: &C,
    check: &mut Semiblock,
    others: &mut [Semiblock],
)
    requires some { 1 ≤ length others.old }
    requires few { length others.old < 2 ^ 54 }
    ensures { check.new ∷ others.new ≡ unwrapped_string (C.round_keys cipher.now)
        (check.old ∷ others.old) }
{
    if others.len() == 1 {
        decrypt_halves(cipher, check, &mut others[0]);
    } else {
        unwrap_in_place(cipher, check, others);
    }
}
