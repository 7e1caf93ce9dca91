//! Counter mode under the key of a struct.

ghost use Rattle.std.specs.Prelude.{◌≡◌, ◌≢◌, ◌↔◌, ◌+◌, ◌-◌, ◌^◌, ◌<◌, ◌≤◌, length};
ghost use Rattle.aes_ctr.specs.CounterMode.{keystream_byte, plus_stream};
ghost use Rattle.aes_c.specs.Form.{round_keys_in, HoldsKey, IsMade};

use crate::form::{Aes, cipher_of};
use crate::status::{DONE, KEYSTREAM_END, NO_KEY, UNEQUAL_COUNTS};
use aes_cipher::not_clone::NotClone;
use aes_ctr::add_keystream;

/// Where a keystream stands: `struct fotsgure_aes_ctr`.
#[repr(C)]
#[derive(Drop)]
pub struct Ctr {
    /// The initial counter block, whole.
    pub iv: [u8; 16],
    /// How many bytes of the keystream come before the next one.
    pub position: u64,
}

impl NotClone for Ctr {}

// Returns the status that refuses `count` bytes of keystream from a position on, or `DONE`.
fn refusal(aes: &Aes, position: u64, count: usize) -> u32
    ensures ended { result ≡ KEYSTREAM_END ↔ (2 ^ 64 - 1 < position + count) }
    ensures done { result ≡ DONE ↔ HoldsKey aes.now.key × (position + count ≤ 2 ^ 64 - 1) }
    ensures refused { result ≢ DONE → result ≢ KEYSTREAM_END → result ≡ NO_KEY }
{
    if count as u64 > u64::MAX - position {
        return KEYSTREAM_END;
    }
    if !aes.key.holds_key() {
        return NO_KEY;
    }
    DONE
}

/// Adds the keystream to bytes, from the position on, and moves the position on by as many bytes
/// (SP 800-38A, 6.5). Returns `KEYSTREAM_END` exactly if the position would pass 2^64 - 1, else
/// `NO_KEY` if the struct holds no key, and `DONE` in all other cases.
#[unsafe(no_mangle)]
pub extern "C" fn fotsgure_aes_add_keystream(aes: &Aes, ctr: &mut Ctr, bytes: &mut [u8]) -> u32
    requires made { IsMade aes.now }
    ensures ended { result ≡ KEYSTREAM_END ↔ (2 ^ 64 - 1 < ctr.old.position + length bytes.old) }
    ensures done { result ≡ DONE ↔ HoldsKey aes.now.key
        × (ctr.old.position + length bytes.old ≤ 2 ^ 64 - 1) }
    ensures refused { result ≢ DONE → result ≢ KEYSTREAM_END → result ≡ NO_KEY }
    ensures bytes { result ≡ DONE → bytes.new
        ≡ plus_stream (keystream_byte (round_keys_in aes.now.key) ctr.old.iv)
        ctr.old.position bytes.old }
    ensures moved { result ≡ DONE → ctr.new.position ≡ ctr.old.position + length bytes.old }
    ensures iv { ctr.new.iv ≡ ctr.old.iv }
    ensures unmoved { result ≢ DONE → ctr.new.position ≡ ctr.old.position }
    ensures untouched { result ≢ DONE → bytes.new ≡ bytes.old }
{
    let status = refusal(aes, ctr.position, bytes.len());
    if status == DONE {
        add_keystream(&cipher_of(&aes.key), &ctr.iv, ctr.position, bytes);
        ctr.position += bytes.len() as u64;
    }
    status
}

/// Writes to one buffer the sum of another and the keystream, and moves the position on. Returns
/// `UNEQUAL_COUNTS` exactly if the buffers differ in length, and else what
/// `fotsgure_aes_add_keystream` returns.
#[unsafe(no_mangle)]
pub extern "C" fn fotsgure_aes_add_keystream_to(
    aes: &Aes,
    ctr: &mut Ctr,
    input: &[u8],
    output: &mut [u8],
) -> u32
    requires made { IsMade aes.now }
    ensures unequal { result ≡ UNEQUAL_COUNTS ↔ (length input.now ≢ length output.old) }
    ensures ended { result ≡ KEYSTREAM_END
        ↔ (length input.now ≡ length output.old)
        × (2 ^ 64 - 1 < ctr.old.position + length input.now) }
    ensures done { result ≡ DONE ↔ HoldsKey aes.now.key
        × ((length input.now ≡ length output.old)
        × (ctr.old.position + length input.now ≤ 2 ^ 64 - 1)) }
    ensures refused { result ≢ DONE → result ≢ UNEQUAL_COUNTS → result ≢ KEYSTREAM_END
        → result ≡ NO_KEY }
    ensures bytes { result ≡ DONE → output.new
        ≡ plus_stream (keystream_byte (round_keys_in aes.now.key) ctr.old.iv)
        ctr.old.position input.now }
    ensures moved { result ≡ DONE → ctr.new.position ≡ ctr.old.position + length input.now }
    ensures iv { ctr.new.iv ≡ ctr.old.iv }
    ensures unmoved { result ≢ DONE → ctr.new.position ≡ ctr.old.position }
    ensures untouched { result ≢ DONE → output.new ≡ output.old }
{
    if input.len() != output.len() {
        return UNEQUAL_COUNTS;
    }
    let status = refusal(aes, ctr.position, input.len());
    if status != DONE {
        return status;
    }
    output.copy_from_slice(input);
    fotsgure_aes_add_keystream(aes, ctr, output)
}
