//! A nibble as a row of a word, with each of its bits once for every block.

ghost use Rattle.std.specs.Prelude.{◌≡◌, ℕ, ◌*◌, ◌/◌, ◌^◌, ◌<◌, ◌≤◌};
ghost use Rattle.aes_planes.specs.Bits.{bit};

// A nibble's bits, each `n` times, lowest first.
#[tactic(auto, using(crate::proofs::Words::Constants::row_calls))]
#[inline(always)]
pub(crate) fn row_of_nibble(b: u8, n: u32) -> u32
    requires nibble { b ≤ 15 }
    requires some { 1 ≤ n }
    requires few { n ≤ 8 }
    ensures small { result < 2 ^ (4 * n) }
    ensures bits { (q : ℕ) → q < 4 * n → bit result q ≡ bit b (q / n) }
{
    let ones = (1 << n) - 1;
    let bit0 = (b & 1) as u32;
    let bit1 = (b >> 1 & 1) as u32;
    let bit2 = (b >> 2 & 1) as u32;
    let bit3 = (b >> 3) as u32;
    (bit0 | bit1 << n | bit2 << 2 * n | bit3 << 3 * n) * ones
}
