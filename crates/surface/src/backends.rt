//! Backends over stored round keys.

use crate::cipher_traits::{backend_decrypts, backend_encrypts};
use aes_planes::soft::sbox::Layers;
use aes_planes::soft::word::Block;
use aes_soft::soft::full::{aes128, aes192, aes256};
use aes_soft::soft::{Aes128Backend, Aes192Backend, Aes256Backend};

/// The backend of a key of 16 bytes.
pub fn by_128(key: &[u8; 16], block: &mut Block) {
    let round_keys = aes128::key_schedule::<u16>(key, &mut Layers::new());
    let backend: Aes128Backend<'_> = Aes128Backend::new(&round_keys);
    backend_encrypts(&backend, block);
    backend_decrypts(&backend, block);
}

/// The backend of a key of 24 bytes.
pub fn by_192(key: &[u8; 24], block: &mut Block) {
    let round_keys = aes192::key_schedule::<u16>(key, &mut Layers::new());
    let backend: Aes192Backend<'_> = Aes192Backend::new(&round_keys);
    backend_encrypts(&backend, block);
    backend_decrypts(&backend, block);
}

/// The backend of a key of 32 bytes.
pub fn by_256(key: &[u8; 32], block: &mut Block) {
    let round_keys = aes256::key_schedule::<u16>(key, &mut Layers::new());
    let backend: Aes256Backend<'_> = Aes256Backend::new(&round_keys);
    backend_encrypts(&backend, block);
    backend_decrypts(&backend, block);
}
