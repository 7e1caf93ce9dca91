//! The struct that a caller keeps: a key as its stored round keys, and the multiples of its H.

ghost use Rattle.std.specs.Prelude.{◌≡◌, ◌≢◌, ◌↔◌, length, true};
ghost use Rattle.aes_cipher.specs.KeySizes.{IsKeySize};
ghost use Rattle.gcm_c.specs.Form.{key_in, key_of, HoldsKey, IsKept, IsZeroAfter};
ghost use Rattle.gcm_c.specs.Kept.{no_gcm, round_keys_in, IsMade};

use crate::form::{Aes, BuildCipher, GhashRoom, KeptKey, cipher_of, holds_key_of, put_key_of};
use crate::status::{DONE, KEY_LENGTH, NO_KEY};
use aes_cipher::aes::is_key_size;
use aes_cipher::not_clone::NotClone;
use aes_cipher::zeroize::{Zeroize, zeroize_elements};
use gcm::{BorrowedGcm, prepare};

/// A key that the caller owns: `struct fotsgure_gcm`. Its blocks are as secret as the key.
#[repr(C)]
#[derive(Drop)]
pub struct Gcm {
    /// The key as its stored round keys.
    pub key: KeptKey,
    /// The multiples of H.
    pub multiples: GhashRoom,
}

impl NotClone for Gcm {}

impl Zeroize for Gcm {
    ghost ZERO = { no_gcm };

    #[inline(always)]
    fn zero() -> Gcm {
        Gcm {
            key: KeptKey::zero(),
            multiples: GhashRoom::zero(),
        }
    }

    #[inline(always)]
    fn zeroize(&mut self) {
        self.key.zeroize();
        zeroize_elements(&mut self.multiples);
    }
}

/// Returns whether the struct holds a key.
pub(crate) fn holds_key(gcm: &Gcm) -> bool
    ensures { result ≡ true ↔ HoldsKey gcm.now.key }
{
    gcm.key.holds_key()
}

/// Lends the key of a struct and its multiples as GCM.
pub(crate) fn mode_of(gcm: &Gcm) -> BorrowedGcm<'_, BuildCipher<'_>, GhashRoom>
    requires made { IsMade gcm.now }
    requires key { HoldsKey gcm.now.key }
    ensures { result ≡ round_keys_in gcm.now }
{
    BorrowedGcm::new(cipher_of(&gcm.key), &gcm.multiples)
}

// Prepares the multiples of the H of the key that the struct holds (SP 800-38D, 7.1, step 1).
fn prepare_multiples(gcm: &mut Gcm)
    requires kept { IsKept gcm.old.key }
    requires holds { HoldsKey gcm.old.key }
    ensures made { IsMade gcm.new }
    ensures key { gcm.new.key ≡ gcm.old.key }
{
    prepare(&cipher_of(&gcm.key), &mut gcm.multiples);
}

/// Expands a key into the struct (KeyExpansion, FIPS 197, 5.2) and prepares the multiples of its H
/// (SP 800-38D, 7.1, step 1). Returns `DONE` exactly if the key has 16, 24 or 32 bytes. Otherwise
/// it returns `KEY_LENGTH`, and the struct then holds no key. In both cases nothing is left of what
/// the struct held before.
#[unsafe(no_mangle)]
pub extern "C" fn fotsgure_gcm_set_key(gcm: &mut Gcm, key: &[u8]) -> u32
    ensures done { result ≡ DONE ↔ IsKeySize (length key.now) }
    ensures refused { result ≢ DONE → result ≡ KEY_LENGTH }
    ensures made { IsMade gcm.new }
    ensures key { result ≡ DONE → key_in gcm.new.key ≡ key.now }
    ensures length { result ≡ DONE → gcm.new.key.length ≡ length key.now }
    ensures after { result ≡ DONE → IsZeroAfter gcm.new.key }
    ensures none { result ≢ DONE → gcm.new ≡ no_gcm }
{
    // Nothing of the struct is read, since it may be uninitialized. No compiler can remove the
    // zeros here: the caller owns the struct, and can read what the call leaves in it.
    if !is_key_size(key.len()) {
        *gcm = Gcm::zero();
        return KEY_LENGTH;
    }
    gcm.key.set(key);
    prepare_multiples(gcm);
    DONE
}

/// Copies the key of a struct of the library of blocks into the struct, and prepares the multiples
/// of its H (SP 800-38D, 7.1, step 1). Returns `DONE` exactly if the other struct holds a key.
/// Otherwise it returns `NO_KEY`, and this struct then holds no key. In both cases nothing is left
/// of what this struct held before.
#[unsafe(no_mangle)]
pub extern "C" fn fotsgure_gcm_set_key_of(gcm: &mut Gcm, aes: &Aes) -> u32
    requires made { IsKept (key_of aes.now) }
    ensures done { result ≡ DONE ↔ HoldsKey (key_of aes.now) }
    ensures refused { result ≢ DONE → result ≡ NO_KEY }
    ensures made { IsMade gcm.new }
    ensures key { result ≡ DONE → gcm.new.key ≡ key_of aes.now }
    ensures none { result ≢ DONE → gcm.new ≡ no_gcm }
{
    if !holds_key_of(aes) {
        fotsgure_gcm_wipe(gcm);
        return NO_KEY;
    }
    put_key_of(aes, &mut gcm.key);
    prepare_multiples(gcm);
    DONE
}

/// Returns how many bytes the key has, or 0 if the struct holds no key.
#[unsafe(no_mangle)]
pub extern "C" fn fotsgure_gcm_key_length(gcm: &Gcm) -> usize
    ensures key { HoldsKey gcm.now.key → result ≡ gcm.now.key.length }
    ensures none { ¬ HoldsKey gcm.now.key → result ≡ 0 }
{
    gcm.key.key_length()
}

/// Overwrites the struct with zeros. It then holds no key.
#[unsafe(no_mangle)]
pub extern "C" fn fotsgure_gcm_wipe(gcm: &mut Gcm)
    ensures made { IsMade gcm.new }
    ensures none { gcm.new ≡ no_gcm }
{
    // A wipe reads what it overwrites, and the struct may be uninitialized. Therefore zeros are
    // written first.
    *gcm = Zeroize::zero();
    gcm.zeroize();
}
