//! How many S-box layers run for a slice of blocks, at each size of keys.

ghost use Rattle.std.specs.Prelude.{◌≡◌, ◌+◌, length};

use aes::{Aes128, Aes192Dec, Aes256Enc, Block};
use aes_planes::soft::sbox::Layers;

/// Processes the same blocks with a value of each size, and counts the layers of each. The counts
/// depend only on the number of blocks: a batch of eight needs as many layers as a single block.
pub fn count_layers(
    blocks: &mut [Block],
    short: &Aes128,
    short_layers: &mut Layers,
    middle: &Aes192Dec,
    middle_layers: &mut Layers,
    long: &Aes256Enc,
    long_layers: &mut Layers,
)
    ensures none { length blocks.old ≡ 0 →
        (short_layers.new ≡ short_layers.old) × (middle_layers.new ≡ middle_layers.old)
        × (long_layers.new ≡ long_layers.old) }
    ensures four { length blocks.old ≡ 4 →
        (short_layers.new ≡ short_layers.old + 40) × (middle_layers.new ≡ middle_layers.old + 48)
        × (long_layers.new ≡ long_layers.old + 56) }
    ensures five { length blocks.old ≡ 5 →
        (short_layers.new ≡ short_layers.old + 50) × (middle_layers.new ≡ middle_layers.old + 60)
        × (long_layers.new ≡ long_layers.old + 70) }
    ensures seven { length blocks.old ≡ 7 →
        (short_layers.new ≡ short_layers.old + 70) × (middle_layers.new ≡ middle_layers.old + 84)
        × (long_layers.new ≡ long_layers.old + 98) }
    ensures eight { length blocks.old ≡ 8 →
        (short_layers.new ≡ short_layers.old + 10) × (middle_layers.new ≡ middle_layers.old + 12)
        × (long_layers.new ≡ long_layers.old + 14) }
    ensures nine { length blocks.old ≡ 9 →
        (short_layers.new ≡ short_layers.old + 20) × (middle_layers.new ≡ middle_layers.old + 24)
        × (long_layers.new ≡ long_layers.old + 28) }
    ensures hundred { length blocks.old ≡ 100 →
        (short_layers.new ≡ short_layers.old + 160) × (middle_layers.new ≡ middle_layers.old + 192)
        × (long_layers.new ≡ long_layers.old + 224) }
{
    short.encrypt_blocks_counted(blocks, short_layers);
    middle.decrypt_blocks_counted(blocks, middle_layers);
    long.encrypt_blocks_counted(blocks, long_layers);
}

/// Makes a value of each size, and counts the layers of each key expansion: 10, 8 and 13.
pub fn count_schedule_layers(
    short: &[u8; 16],
    short_layers: &mut Layers,
    middle: &[u8; 24],
    middle_layers: &mut Layers,
    long: &[u8; 32],
    long_layers: &mut Layers,
)
    ensures short { short_layers.new ≡ short_layers.old + 10 }
    ensures middle { middle_layers.new ≡ middle_layers.old + 8 }
    ensures long { long_layers.new ≡ long_layers.old + 13 }
{
    Aes128::new_counted(short, short_layers);
    Aes192Dec::new_counted(middle, middle_layers);
    Aes256Enc::new_counted(long, long_layers);
}
