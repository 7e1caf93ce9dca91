//! Key schedules and ciphers of both layouts, at each size of key.

use aes_planes::soft::sbox::Layers;
use aes_planes::soft::word::Word;
use aes_soft::soft::{compact, full};

// Blocks encrypted under a key and decrypted again, in a layout.
macro_rules! there_and_back {
    ($layout:ident, $size:ident, $word:ident, $key:expr, $blocks:expr) => {{
        let mut layers = Layers::new();
        let round_keys: $layout::$size::RoundKeys<$word> =
            $layout::$size::key_schedule::<$word>($key, &mut layers);
        let encrypted = $layout::$size::encrypt::<$word>(&round_keys, $blocks, &mut layers);
        $layout::$size::decrypt::<$word>(&round_keys, &encrypted, &mut layers)
    }};
}

/// Keys of 16 bytes, in both layouts.
pub fn by_128<W: Word>(key: &[u8; 16], blocks: &W::Blocks) -> W::Blocks {
    let back = there_and_back!(full, aes128, W, key, blocks);
    there_and_back!(compact, aes128, W, key, &back)
}

/// Keys of 24 bytes, in both layouts.
pub fn by_192<W: Word>(key: &[u8; 24], blocks: &W::Blocks) -> W::Blocks {
    let back = there_and_back!(full, aes192, W, key, blocks);
    there_and_back!(compact, aes192, W, key, &back)
}

/// Keys of 32 bytes, in both layouts.
pub fn by_256<W: Word>(key: &[u8; 32], blocks: &W::Blocks) -> W::Blocks {
    let back = there_and_back!(full, aes256, W, key, blocks);
    there_and_back!(compact, aes256, W, key, &back)
}

/// Schedules on `u16` as those of another word.
pub fn widened<W: Word>(
    key_128: &[u8; 16],
    key_192: &[u8; 24],
    key_256: &[u8; 32],
    layers: &mut Layers,
) -> ([W; 88], [W; 104], [W; 120]) {
    let keys_128 = full::aes128::key_schedule::<u16>(key_128, layers);
    let keys_192 = full::aes192::key_schedule::<u16>(key_192, layers);
    let keys_256 = full::aes256::key_schedule::<u16>(key_256, layers);
    (
        full::widen::<W, 88>(&keys_128),
        full::widen::<W, 104>(&keys_192),
        full::widen::<W, 120>(&keys_256),
    )
}
