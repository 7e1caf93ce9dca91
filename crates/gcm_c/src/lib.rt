//! GCM and AES-GCM-SIV for C, and for languages that call C: `dist/include/fotsgure_gcm.h` declares
//! these calls.
//!
//! The header states what a `requires` asks of callers; nothing checks a call from C. The same
//! exports serve keys of 16, 24 and 32 bytes, since the struct knows how long its key is.
#![tactic(auto)]

ghost use Rattle.std.specs.Prelude.{◌≡◌};

mod counter;
pub mod examples;
mod form;
mod kept;
mod pieces;
mod siv;
mod siv_kept;
mod siv_to;
mod status;
mod whole;
mod whole_to;
mod width;

pub use counter::{fotsgure_gcm_begin_next, fotsgure_gcm_seal_next};
pub use form::Aes;
pub use gcm::{Counter, Message};
pub use kept::{
    Gcm, fotsgure_gcm_key_length, fotsgure_gcm_set_key, fotsgure_gcm_set_key_of, fotsgure_gcm_wipe,
};
pub use pieces::{
    fotsgure_gcm_accept, fotsgure_gcm_accept_short, fotsgure_gcm_additional, fotsgure_gcm_begin,
    fotsgure_gcm_decrypt, fotsgure_gcm_decrypt_unverified, fotsgure_gcm_encrypt,
    fotsgure_gcm_finish, fotsgure_gcm_finish_unverified, fotsgure_gcm_verify,
    fotsgure_gcm_wipe_message,
};
pub use siv::{fotsgure_gcm_siv_open, fotsgure_gcm_siv_seal};
pub use siv_kept::{Siv, fotsgure_gcm_siv_set_key, fotsgure_gcm_siv_wipe};
pub use siv_to::{fotsgure_gcm_siv_open_to, fotsgure_gcm_siv_seal_to};
pub use status::{
    DONE, KEY_LENGTH, NO_KEY, NONCE_LENGTH, NONCES_END, OUT_OF_TURN, REFUSED, TAG_LENGTH, TOO_LONG,
    UNEQUAL_LENGTHS,
};
pub use whole::{fotsgure_gcm_open, fotsgure_gcm_seal};
pub use whole_to::{fotsgure_gcm_open_to, fotsgure_gcm_seal_to};
pub use width::BuildWidth;

/// The version of the interface: 10000 times the first number, 100 times the second, plus the
/// third.
pub const VERSION: u32 = 400;

/// Returns the version of the library. Programs compare it with the version in their header.
#[unsafe(no_mangle)]
pub extern "C" fn fotsgure_gcm_version() -> u32
    ensures { result ≡ VERSION }
{
    VERSION
}
