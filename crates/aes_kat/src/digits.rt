//! Writes blocks as hexadecimal digits.
ghost use Rattle.std.specs.Prelude.{◌≡◌, ◌≤◌, ◌<◌, ◌+◌, ◌++◌, length, map, take};
ghost use Rattle.std.specs.List.{flat_map, join_with_byte};
ghost use Rattle.hex.specs.Hex.{encode_lower};

use crate::replies::ReplyBuffer;
use aes::Block;

// Writes the digits of a block into `out`, from `start` on, and returns where they end.
pub(crate) fn write_block(block: &Block, start: usize, out: &mut ReplyBuffer) -> usize
    requires { start + 32 ≤ 2048 }
    ensures end { result ≡ start + 32 }
    ensures text { take result out.new ≡ take start out.old ++ encode_lower block.now }
{
    let end = start + 2 * block.len();
    hex::encode_to_slice(block, &mut out[start..end]).unwrap();
    end
}

// Writes blocks at the front of `out`, one after the other, and returns where they end.
pub(crate) fn write_joined(blocks: &[Block], out: &mut ReplyBuffer) -> usize
    requires { length blocks.now ≤ 64 }
    ensures fits { result ≤ 2048 }
    ensures text { take result out.new ≡ flat_map encode_lower blocks.now }
{
    let mut end = 0;
    for block in blocks {
        end = write_block(block, end, out);
    }
    end
}

// Writes blocks at the front of `out`, one space between, and returns where they end.
#[tactic(auto, using(crate::proofs::Blocks::take_joined, std::proofs::lemmas::Grind::common_steps))]
pub(crate) fn write_spaced(blocks: &[Block], out: &mut ReplyBuffer) -> usize
    requires some { 0 < length blocks.now }
    requires few { length blocks.now ≤ 15 }
    ensures fits { result ≤ 2048 }
    ensures text { take result out.new ≡ join_with_byte 32 (map encode_lower blocks.now) }
{
    let mut end = 0;
    for block in blocks {
        let space = write_block(block, end, out);
        out[space] = b' ';
        end = space + 1;
    }
    // No space follows the last block.
    end - 1
}
