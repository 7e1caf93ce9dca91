//! The nine types. Their calls are made for any size of key, so that they are proved once.

use crate::cipher_traits::{decrypts, encrypts, made, sizes, write_name};
use crate::own_closures::Five;
use aes::{
    Aes128, Aes128Dec, Aes128Enc, Aes192, Aes192Dec, Aes192Enc, Aes256, Aes256Dec, Aes256Enc,
    Block, FixslicedAes, hardware_accelerated,
};
use aes_cipher::aes::{Bits128, Bits192, Bits256, BothWays, KeySize};
use aes_cipher::cipher::{
    AlgorithmName, BlockCipherDecrypt, BlockCipherEncrypt, BlockSizeUser, Decrypt, Encrypt, KeyInit,
};
use aes_cipher::zeroize::ZeroizeOnDrop;
use aes_planes::soft::sbox::Layers;
use std::fmt;
use std::fmt::{Debug, Display, Write};
use std::marker::PhantomData;

/// Whether the processor's instructions for AES are used.
pub fn is_accelerated() -> bool {
    hardware_accelerated()
}

// The name of a type.
#[derive(Drop)]
struct Name<C> {
    of: PhantomData<C>,
}

impl<C: AlgorithmName> Display for Name<C> {
    fn fmt<W: fmt::Write>(&self, f: &mut fmt::Formatter<W>) -> fmt::Result {
        write_name::<C, W>(f)
    }
}

// Uses what each of the nine types has. Returns whether the text was written and each value made.
fn has_all_traits<C, W>(key: &C::Key, slice: &[u8], out: &mut W) -> bool
where
    C: KeyInit + BlockSizeUser + AlgorithmName + Clone + Debug + ZeroizeOnDrop + Drop,
    W: Write,
{
    let [_, _] = sizes::<C>();
    let name = Name::<C> { of: PhantomData };
    let Ok((cipher, _)) = made::<C>(key, slice) else {
        return false;
    };
    write!(out, "{name} {cipher:?}").is_ok() && cipher.clone().is_ok()
}

// Encrypts and decrypts the blocks by every call.
fn both_ways<E: BlockCipherEncrypt, D: BlockCipherDecrypt>(
    enc: &E,
    dec: &D,
    blocks: &mut [Block],
) -> bool {
    let input = [[0; 16]; 5];
    let mut five = Five { blocks: input };
    encrypts(enc, &mut five, &input, blocks).is_ok()
        && decrypts(dec, &mut five, &input, blocks).is_ok()
}

// Makes the three types of a size, and encrypts and decrypts with each.
fn counted<K: KeySize>(
    key: &K::Key,
    blocks: &mut [Block],
    layers: &mut Layers,
) -> (
    FixslicedAes<K, BothWays>,
    FixslicedAes<K, Encrypt>,
    FixslicedAes<K, Decrypt>,
) {
    let both = FixslicedAes::<K, BothWays>::new_counted(key, layers);
    let enc = FixslicedAes::<K, Encrypt>::new_counted(key, layers);
    let dec = FixslicedAes::<K, Decrypt>::new_counted(key, layers);
    both.encrypt_blocks_counted(blocks, layers);
    enc.encrypt_blocks_counted(blocks, layers);
    both.decrypt_blocks_counted(blocks, layers);
    dec.decrypt_blocks_counted(blocks, layers);
    (both, enc, dec)
}

// Converts types that encrypt, lent and given, to the others of their size.
fn converted<K: KeySize>(key: &K::Key, blocks: &mut [Block]) -> bool {
    let enc = FixslicedAes::<K, Encrypt>::new(key);
    let both = FixslicedAes::<K, BothWays>::from(&enc);
    let dec = FixslicedAes::<K, Decrypt>::from(&enc);
    let lent = both_ways(&enc, &dec, blocks) && both_ways(&both, &both, blocks);
    let same = FixslicedAes::<K, Encrypt>::new(key);
    let both = FixslicedAes::<K, BothWays>::from(enc);
    let dec = FixslicedAes::<K, Decrypt>::from(same);
    lent && both_ways(&both, &dec, blocks)
}

// Uses the three types of a size.
fn uses_three<K: KeySize, W: Write>(
    key: &K::Key,
    slice: &[u8],
    blocks: &mut [Block],
    out: &mut W,
) -> bool {
    has_all_traits::<FixslicedAes<K, BothWays>, W>(key, slice, out)
        && has_all_traits::<FixslicedAes<K, Encrypt>, W>(key, slice, out)
        && has_all_traits::<FixslicedAes<K, Decrypt>, W>(key, slice, out)
        && converted::<K>(key, blocks)
}

/// The types of keys of 16 bytes.
pub fn by_128(
    key: &[u8; 16],
    blocks: &mut [Block],
    layers: &mut Layers,
) -> (Aes128, Aes128Enc, Aes128Dec) {
    counted::<Bits128>(key, blocks, layers)
}

/// The types of keys of 24 bytes.
pub fn by_192(
    key: &[u8; 24],
    blocks: &mut [Block],
    layers: &mut Layers,
) -> (Aes192, Aes192Enc, Aes192Dec) {
    counted::<Bits192>(key, blocks, layers)
}

/// The types of keys of 32 bytes.
pub fn by_256(
    key: &[u8; 32],
    blocks: &mut [Block],
    layers: &mut Layers,
) -> (Aes256, Aes256Enc, Aes256Dec) {
    counted::<Bits256>(key, blocks, layers)
}

/// Uses all nine.
pub fn uses_nine<W: Write>(key: &[u8; 32], blocks: &mut [Block], out: &mut W) -> bool {
    let mut key_128 = [0; 16];
    key_128.copy_from_slice(&key[..16]);
    let mut key_192 = [0; 24];
    key_192.copy_from_slice(&key[..24]);
    uses_three::<Bits128, W>(&key_128, &key_128, blocks, out)
        && uses_three::<Bits192, W>(&key_192, &key_192, blocks, out)
        && uses_three::<Bits256, W>(key, key, blocks, out)
}
