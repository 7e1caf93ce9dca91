//! Tags of messages under the key of a struct: CMAC.

ghost use Rattle.std.specs.Prelude.{◌≡◌, ◌≢◌, ◌↔◌, ◌≤◌, length, take, IsTrue};
ghost use Rattle.cmac.specs.Cmac as nist;
ghost use Rattle.aes_c.specs.Form.{round_keys_in, HoldsKey, IsMade};
ghost use Rattle.aes_c.specs.Lengths.{IsCmacLength};

mod pieces;

use crate::form::{Aes, cipher_of};
use crate::status::{DONE, NO_KEY, REFUSED, TAG_LENGTH};
use aes_cipher::cipher::Block;
use aes_cipher::zeroize::wipe_stack;
pub use cmac::Message as CmacMessage;
use cmac::{is_tag_start, tag};
pub use pieces::{
    fotsgure_aes_cmac_accept, fotsgure_aes_cmac_begin, fotsgure_aes_cmac_finish,
    fotsgure_aes_cmac_update, fotsgure_aes_cmac_wipe,
};

// The most bytes of stack that a call needs to make a tag. The call leaves subkeys there, values of
// the chain, and the right tag of a message that is refused. 512 bytes suffice for most builds.
// More are needed where the length of vectors isn't known when code is compiled, as on RISC-V.
const TAG_STACK: usize = 768;

// How many bytes a tag has at least, and at most.
const SHORTEST: usize = 4;

const LONGEST: usize = 16;

// Returns whether a tag may have this many bytes.
fn is_tag_length(length: usize) -> bool
    ensures { IsTrue result ↔ IsCmacLength length }
{
    length >= SHORTEST && length <= LONGEST
}

/// Writes the tag of a message (CMAC, SP 800-38B, 6.2). Returns `DONE` exactly if the struct holds
/// a key, else `NO_KEY`.
#[unsafe(no_mangle)]
pub extern "C" fn fotsgure_aes_cmac(aes: &Aes, message: &[u8], output: &mut Block) -> u32
    requires made { IsMade aes.now }
    ensures done { result ≡ DONE ↔ HoldsKey aes.now.key }
    ensures refused { result ≢ DONE → result ≡ NO_KEY }
    ensures tag { result ≡ DONE → output.new ≡ nist.cmac (round_keys_in aes.now.key) message.now }
    ensures untouched { result ≢ DONE → output.new ≡ output.old }
{
    if !aes.key.holds_key() {
        return NO_KEY;
    }
    *output = tag(&cipher_of(&aes.key), message);
    wipe_stack::<TAG_STACK>();
    DONE
}

/// Compares a tag, or the first bytes of one, with that of a message, without an early exit (SP
/// 800-38B, 6.3). Returns `NO_KEY` exactly if the struct holds no key. Else returns `TAG_LENGTH` if
/// the tag has fewer than 4 bytes or more than 16. Else returns `REFUSED` if the tag is wrong, and
/// `DONE` if it is right.
#[unsafe(no_mangle)]
pub extern "C" fn fotsgure_aes_cmac_verify(aes: &Aes, message: &[u8], claimed: &[u8]) -> u32
    requires made { IsMade aes.now }
    ensures no_key { result ≡ NO_KEY ↔ ¬ HoldsKey aes.now.key }
    ensures tag_length { result ≡ TAG_LENGTH
        ↔ HoldsKey aes.now.key × ¬ IsCmacLength (length claimed.now) }
    ensures done { result ≡ DONE ↔ HoldsKey aes.now.key × (IsCmacLength (length claimed.now)
        × (claimed.now ≡ take (length claimed.now)
        (nist.cmac (round_keys_in aes.now.key) message.now))) }
    ensures refused { result ≢ DONE → result ≢ NO_KEY → result ≢ TAG_LENGTH → result ≡ REFUSED }
{
    if !aes.key.holds_key() {
        return NO_KEY;
    }
    if !is_tag_length(claimed.len()) {
        return TAG_LENGTH;
    }
    let is_right = is_tag_start(&cipher_of(&aes.key), message, claimed);
    wipe_stack::<TAG_STACK>();
    if is_right { DONE } else { REFUSED }
}
