//! Words, packing and the S-box on worked values, at each width.

ghost use Rattle.std.specs.Prelude.{◌<◌};

mod steps;

use crate::tests::words::{WordTrial, try_words};
use aes_planes::soft::planes::{pack_unpacked, unpack_packed};
use aes_planes::soft::sbox::{Layers, inv_sub_bytes, sub_bytes, sub_bytes_nots};
use aes_planes::soft::word::{Batch, Block, Word};

// A block with sixteen different bytes.
const BLOCK: Block = [
    0x32, 0x43, 0xf6, 0xa8, 0x88, 0x5a, 0x30, 0x8d, 0x31, 0x37, 0x98, 0xa2, 0xe0, 0x2c, 0x07, 0x34,
];

// S of each byte of BLOCK, by the table of FIPS 197, figure 7.
const SUBSTITUTED: Block = [
    0x23, 0x1a, 0x42, 0xc2, 0xc4, 0xbe, 0x04, 0x5d, 0xc7, 0x9a, 0x46, 0x3a, 0xe1, 0x71, 0xc5, 0x18,
];

// A block with its columns turned `columns` places: no step between round keys tells columns apart.
fn turned(block: &Block, columns: usize) -> Block {
    let mut bytes = [0; 16];
    for i in 0..16usize {
        bytes[i] = block[(i + columns % 4 * 4) % 16];
    }
    bytes
}

// Blocks with the columns of one turned once more in each slot.
fn batch_of<B: Batch>(block: &Block) -> B {
    let mut blocks = B::zero();
    for i in 0..B::LEN {
        blocks.set(i, turned(block, i));
    }
    blocks
}

// The block in slot 0, where each slot has its columns turned once more, and else zeros.
fn block_of<B: Batch>(blocks: &B) -> Block {
    let mut first = [0; 16];
    for i in 0..B::LEN {
        if i == 0 {
            first = blocks.get(0);
        }
        if blocks.get(i) != turned(&first, i) {
            return [0; 16];
        }
    }
    first
}

fn packed<W: Word>(block: Block) -> [W; 8] {
    let mut planes = [W::zero(); 8];
    let blocks: W::Blocks = batch_of(&block);
    W::bitslice(&mut planes, &blocks);
    planes
}

fn unpacked<W: Word>(planes: &[W; 8]) -> Block {
    block_of(&W::inv_bitslice(planes))
}

// And, or, exclusive or and not of two words.
fn gates<W: Word>(a: W, b: W) -> [W; 4] {
    [a.bit_and(b), a.bit_or(b), a.bit_xor(b), a.bit_not()]
}

// A word shifted left and right by a row, and turned by one.
fn moved<W: Word>(a: W) -> [W; 3] {
    let row = W::ror_distance(1, 0);
    [a.shift_left(row), a.shift_right(row), a.ror(row)]
}

// Each word that is made from a constant.
fn constants<W: Word>() -> [W; 6] {
    [
        W::zero(),
        W::broadcast(0x8001),
        W::pack_rows(0, 8, 0, 0),
        W::uniform_row(3),
        W::uniform_row(0xc),
        W::byte_repeat(0x5a),
    ]
}

// The planes of zeros after the S-box without its constant, and after the NOTs.
fn zeros_substituted<W: Word>() -> [[W; 8]; 2] {
    let mut planes = [W::zero(); 8];
    sub_bytes(&mut planes, &mut Layers::new());
    let mut whole = planes;
    sub_bytes_nots(&mut whole);
    [planes, whole]
}

// The block after the S-box without its constant, after the NOTs, and after both are undone.
fn substituted<W: Word>(block: Block) -> [Block; 3] {
    let mut planes = packed::<W>(block);
    sub_bytes(&mut planes, &mut Layers::new());
    let bare = unpacked(&planes);
    let mut whole = planes;
    sub_bytes_nots(&mut whole);
    inv_sub_bytes(&mut planes, &mut Layers::new());
    [bare, unpacked(&whole), unpacked(&planes)]
}

// The block after packing and unpacking, and after packing, unpacking and packing.
fn there_and_back<W: Word>(block: Block) -> [Block; 2] {
    let blocks: W::Blocks = batch_of(&block);
    let back: W::Blocks = unpack_packed::<W>(&blocks);
    let planes = pack_unpacked(&packed::<W>(block));
    [block_of(&back), unpacked(&planes)]
}

// The planes of a batch that is zero but for bytes: a slot, a place in its block, and a value for
// each.
fn planes_of_bytes<W: Word>(bytes: &[(usize, usize, u8)]) -> [W; 8] {
    let mut blocks = W::Blocks::zero();
    for &(slot, place, value) in bytes {
        if slot < W::Blocks::LEN && place < 16 {
            let mut block = blocks.get(slot);
            block[place] = value;
            blocks.set(slot, block);
        }
    }
    let mut planes = [W::zero(); 8];
    W::bitslice(&mut planes, &blocks);
    planes
}

// A plane in its place among the eight, and zeros.
fn one_plane<W: Word>(p: usize, plane: W) -> [W; 8]
    requires { p < 8 }
{
    let mut planes = [W::zero(); 8];
    planes[p] = plane;
    planes
}

// By the rule of places: row r and column c of block k stand at r * 4 * n + c * n + k, of n blocks.
#[test]
fn packs_bits_by_row_column_and_block(rt: HostRuntime) {
    assert!(rt; planes_of_bytes::<u16>(&[(0, 1, 0x01)]) == one_plane(0, 0x0010));
    assert!(rt; planes_of_bytes::<u32>(&[(1, 1, 0x01)]) == one_plane(0, 0x0000_0200));
    assert!(rt; planes_of_bytes::<u64>(&[(3, 1, 0x01)]) == one_plane(0, 0x0008_0000));
    assert!(rt; planes_of_bytes::<u128>(&[(7, 1, 0x01)]) == one_plane(0, 1 << 39));
    assert!(rt;
        planes_of_bytes::<u32>(&[(0, 15, 0x80), (1, 0, 0x80)]) == one_plane(7, 0x4000_0002)
    );
    assert!(rt;
        planes_of_bytes::<u64>(&[(0, 4, 0x02), (2, 11, 0x02)])
            == one_plane(1, 0x0400_0000_0000_0010)
    );
}

struct Packs;

impl WordTrial for Packs {
    fn passes<W: Word>(&self) -> bool {
        there_and_back::<W>(BLOCK) == [BLOCK; 2]
    }
}

#[test]
fn packs_and_unpacks(rt: HostRuntime) {
    try_words(&rt, &Packs);
}

// By the formula of each call in the trait `Word`.
#[test]
fn makes_constants(rt: HostRuntime) {
    assert!(rt; constants::<u16>() == [0, 0x8001, 0x0080, 0x3333, 0xcccc, 0x5a5a]);
    assert!(rt;
        constants::<u32>()
            == [
                0,
                0xc000_0003,
                0x0000_c000,
                0x0f0f_0f0f,
                0xf0f0_f0f0,
                0x5a5a_5a5a
            ]
    );
    assert!(rt;
        constants::<u64>()
            == [
                0,
                0xf000_0000_0000_000f,
                0x0000_0000_f000_0000,
                0x00ff_00ff_00ff_00ff,
                0xff00_ff00_ff00_ff00,
                0x5a5a_5a5a_5a5a_5a5a
            ]
    );
    assert!(rt;
        constants::<u128>()
            == [
                0,
                0xff00_0000_0000_0000_0000_0000_0000_00ff,
                0x0000_0000_0000_0000_ff00_0000_0000_0000,
                0x0000_ffff_0000_ffff_0000_ffff_0000_ffff,
                0xffff_0000_ffff_0000_ffff_0000_ffff_0000,
                0x5a5a_5a5a_5a5a_5a5a_5a5a_5a5a_5a5a_5a5a
            ]
    );
}

// By the formula of each call in the trait `Word`.
#[test]
fn counts_places_by_rows_and_columns(rt: HostRuntime) {
    assert!(rt;
        [
            u16::ror_distance(1, 3),
            u32::ror_distance(1, 3),
            u64::ror_distance(1, 3),
            u128::ror_distance(1, 3)
        ] == [7, 14, 28, 56]
    );
}

// By the formula of each call in the trait `Word`.
#[test]
fn combines_bits(rt: HostRuntime) {
    assert!(rt; gates(0x0ff0u16, 0x3c3c) == [0x0c30, 0x3ffc, 0x33cc, 0xf00f]);
    assert!(rt;
        gates(0x0ff0u128 << 112 | 5, 0x3c3c << 112 | 6)
            == [
                0x0c30 << 112 | 4,
                0x3ffc << 112 | 7,
                0x33cc << 112 | 3,
                (0xf010 << 112) - 6
            ]
    );
}

// By the formula of each call in the trait `Word`.
#[test]
fn moves_bits(rt: HostRuntime) {
    assert!(rt; moved(0x8421u16) == [0x4210, 0x0842, 0x1842]);
    assert!(rt; moved(0x8765_4321u32) == [0x6543_2100, 0x0087_6543, 0x2187_6543]);
    assert!(rt;
        moved(0xfedc_ba98_7654_3210u64)
            == [
                0xba98_7654_3210_0000,
                0x0000_fedc_ba98_7654,
                0x3210_fedc_ba98_7654
            ]
    );
    assert!(rt;
        moved(0x0f1e_2d3c_4b5a_6978_8796_a5b4_c3d2_e1f0u128)
            == [
                0x4b5a_6978_8796_a5b4_c3d2_e1f0_0000_0000,
                0x0000_0000_0f1e_2d3c_4b5a_6978_8796_a5b4,
                0xc3d2_e1f0_0f1e_2d3c_4b5a_6978_8796_a5b4
            ]
    );
}

// S of 0 is 0x63 (FIPS 197, 5.1.1), whose bits are 0, 1, 5 and 6.
#[test]
fn substitutes_zeros_by_the_constant(rt: HostRuntime) {
    let a = u16::MAX;
    assert!(rt; zeros_substituted() == [[0u16; 8], [a, a, 0, 0, 0, a, a, 0]]);
    let b = u32::MAX;
    assert!(rt; zeros_substituted() == [[0u32; 8], [b, b, 0, 0, 0, b, b, 0]]);
    let c = u64::MAX;
    assert!(rt; zeros_substituted() == [[0u64; 8], [c, c, 0, 0, 0, c, c, 0]]);
    let d = u128::MAX;
    assert!(rt; zeros_substituted() == [[0u128; 8], [d, d, 0, 0, 0, d, d, 0]]);
}

struct Substitutes;

impl WordTrial for Substitutes {
    fn passes<W: Word>(&self) -> bool {
        let [bare, whole, back] = substituted::<W>(BLOCK);
        let mut right = whole == SUBSTITUTED && back == BLOCK;
        for i in 0..16usize {
            right &= bare[i] ^ 0x63 == SUBSTITUTED[i];
        }
        right
    }
}

#[test]
fn substitutes_and_undoes_it(rt: HostRuntime) {
    try_words(&rt, &Substitutes);
}
