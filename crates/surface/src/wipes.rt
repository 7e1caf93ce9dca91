//! Wipes.

use aes_cipher::zeroize::{Wiped, ZeroizeOnDrop, zeroize_words};
use aes_planes::soft::word::Word;

/// Wipes words of any width.
pub fn words<W: Word>(words: &mut [W]) {
    zeroize_words::<W>(words);
}

// Wipes a value by dropping it.
fn dropped<V: ZeroizeOnDrop + Drop>(_value: V) {}

/// Wipes round keys, by a call and by a drop.
pub fn round_keys(words: [u16; 88]) {
    let mut wiped = Wiped::<[u16; 88]>::new(words);
    wiped.wipe();
    let _: &[u16; 88] = wiped.value();
    dropped(wiped);
}
