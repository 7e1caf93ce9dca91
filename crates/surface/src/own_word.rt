//! A word and a batch that a user writes.

ghost use Rattle.std.proofs.Common.{arith, rules};
ghost use Rattle.aes_planes.specs.Bits.{bit};
ghost use Rattle.aes_planes.specs.Private.BuiltLength.{built_shape};
ghost use Rattle.aes_planes.specs.Words.{word_bits};

use aes_planes::soft::word::{Batch, Block, Blocks1, Word};

/// One block.
#[derive(Drop)]
pub struct OneBlock {
    inside: Blocks1,
}

impl Batch for OneBlock {
    ghost blocks = { λ batch. ⟦<Blocks1 as Batch>⟧.blocks batch.inside };

    ghost LEN = { 1 };

    const LEN: usize = 1;

    fn zero() -> OneBlock {
        OneBlock {
            inside: Blocks1::zero(),
        }
    }

    fn get(&self, i: usize) -> Block {
        self.inside.get(i)
    }

    fn set(&mut self, i: usize, block: Block) {
        self.inside.set(i, block);
    }
}

/// Sixteen bits, which are those of a `u16`.
#[derive(Clone, Copy)]
pub struct Tile {
    bits: u16,
}

impl Word for Tile {
    ghost bits = { λ tile. word_bits 16 tile.bits };

    ghost BLOCKS = { 1 };

    ghost BITS = { 16 };

    ghost ROW_BITS = { 4 };

    ghost HALF_ROW = { 2 };

    ghost QUARTER_ROW = { 1 };

    type Blocks = OneBlock;

    const BLOCKS: u32 = 1;

    const BITS: u32 = 16;

    const ROW_BITS: u32 = 4;

    const HALF_ROW: u32 = 2;

    const QUARTER_ROW: u32 = 1;

    fn bit_and(self, o: Tile) -> Tile {
        Tile {
            bits: self.bits.bit_and(o.bits),
        }
    }

    fn bit_or(self, o: Tile) -> Tile {
        Tile {
            bits: self.bits.bit_or(o.bits),
        }
    }

    fn bit_xor(self, o: Tile) -> Tile {
        Tile {
            bits: self.bits.bit_xor(o.bits),
        }
    }

    fn bit_not(self) -> Tile {
        Tile {
            bits: self.bits.bit_not(),
        }
    }

    fn shift_left(self, n: u32) -> Tile {
        Tile {
            bits: self.bits.shift_left(n),
        }
    }

    fn shift_right(self, n: u32) -> Tile {
        Tile {
            bits: self.bits.shift_right(n),
        }
    }

    fn ror(self, n: u32) -> Tile {
        Tile {
            bits: self.bits.ror(n),
        }
    }

    fn ror_distance(rows: u32, cols: u32) -> u32 {
        u16::ror_distance(rows, cols)
    }

    fn uniform_row(b: u8) -> Tile {
        Tile {
            bits: u16::uniform_row(b),
        }
    }

    fn pack_rows(r0: u8, r1: u8, r2: u8, r3: u8) -> Tile {
        Tile {
            bits: u16::pack_rows(r0, r1, r2, r3),
        }
    }

    fn byte_repeat(b: u8) -> Tile {
        Tile {
            bits: u16::byte_repeat(b),
        }
    }

    fn zero() -> Tile {
        Tile {
            bits: <u16 as Word>::zero(),
        }
    }

    fn broadcast(x: u16) -> Tile {
        Tile {
            bits: u16::broadcast(x),
        }
    }

    fn low_byte(self) -> u8 {
        self.bits.low_byte()
    }

    fn bitslice(output: &mut [Tile; 8], input: &OneBlock) {
        let mut planes = [0; 8];
        u16::bitslice(&mut planes, &input.inside);
        let [p0, p1, p2, p3, p4, p5, p6, p7] = planes;
        *output = [
            Tile { bits: p0 },
            Tile { bits: p1 },
            Tile { bits: p2 },
            Tile { bits: p3 },
            Tile { bits: p4 },
            Tile { bits: p5 },
            Tile { bits: p6 },
            Tile { bits: p7 },
        ];
    }

    fn inv_bitslice(input: &[Tile; 8]) -> OneBlock {
        let [t0, t1, t2, t3, t4, t5, t6, t7] = *input;
        let planes = [
            t0.bits, t1.bits, t2.bits, t3.bits, t4.bits, t5.bits, t6.bits, t7.bits,
        ];
        OneBlock {
            inside: u16::inv_bitslice(&planes),
        }
    }

    ghost shape = { built_shape (λ tile. bit tile.bits) 1 _ (Prim.search rules)
        (Prim.search rules) (Prim.search rules) };

    ghost keys_fit = { Prim.omega arith };
}
