//! AES for C, and for languages that call C: `dist/include/fotsgure_aes.h` declares these calls.
//!
//! The header states what a `requires` asks of callers; nothing checks a call from C. The same
//! exports serve keys of 16, 24 and 32 bytes, since the struct knows how long its key is.
#![tactic(auto)]

ghost use Rattle.std.specs.Prelude.{◌≡◌};

mod blocks;
mod chains;
pub mod examples;
mod form;
mod kept;
mod messages;
mod once;
mod single_rounds;
mod status;
mod stream;
mod tags;
mod width;
mod wrapping;

pub use blocks::{
    fotsgure_aes_decrypt_blocks, fotsgure_aes_decrypt_blocks_to, fotsgure_aes_encrypt_blocks,
    fotsgure_aes_encrypt_blocks_to,
};
pub use cbc::Cbc;
pub use chains::{fotsgure_aes_cbc_decrypt, fotsgure_aes_cbc_encrypt};
pub use form::Aes;
pub use kept::{fotsgure_aes_key_length, fotsgure_aes_set_key, fotsgure_aes_wipe};
pub use key_wrap::Semiblock;
pub use messages::{fotsgure_aes_ccm_open, fotsgure_aes_ccm_seal};
pub use once::{
    fotsgure_aes_add_keystream_with, fotsgure_aes_decrypt_blocks_with,
    fotsgure_aes_encrypt_blocks_with,
};
pub use single_rounds::{
    fotsgure_aes_cipher_round, fotsgure_aes_cipher_round_par, fotsgure_aes_equiv_inv_cipher_round,
    fotsgure_aes_equiv_inv_cipher_round_par, fotsgure_aes_inv_mix_columns,
    fotsgure_aes_mix_columns,
};
pub use status::{
    DONE, INVALID_COUNT, KEY_LENGTH, KEYSTREAM_END, NO_KEY, NONCE_LENGTH, OUT_OF_TURN, REFUSED,
    TAG_LENGTH, TOO_LONG, UNEQUAL_COUNTS, VERSION,
};
pub use stream::{Ctr, fotsgure_aes_add_keystream, fotsgure_aes_add_keystream_to};
pub use tags::{
    CmacMessage, fotsgure_aes_cmac, fotsgure_aes_cmac_accept, fotsgure_aes_cmac_begin,
    fotsgure_aes_cmac_finish, fotsgure_aes_cmac_update, fotsgure_aes_cmac_verify,
    fotsgure_aes_cmac_wipe,
};
pub use width::BuildWidth;
pub use wrapping::{
    fotsgure_aes_unwrap, fotsgure_aes_unwrap_padded, fotsgure_aes_wrap, fotsgure_aes_wrap_padded,
};

/// Returns the version of the library. Programs compare it with the version in their header.
#[unsafe(no_mangle)]
pub extern "C" fn fotsgure_aes_version() -> u32
    ensures { result ≡ VERSION }
{
    VERSION
}
