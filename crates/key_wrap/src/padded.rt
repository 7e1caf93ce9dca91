//! Keys of any number of bytes, wrapped with padding (KWP, SP 800-38F, 6.3; RFC 5649), and
//! unwrapped.

ghost use Rattle.std.specs.Prelude.{◌≡◌, ◌↔◌, ◌+◌, ◌-◌, ◌*◌, ◌^◌, ◌<◌, ◌≤◌, ◌∷◌, ◌++◌, [], drop};
ghost use Rattle.std.specs.Prelude.{length, replicate, take, IfOk, IsErrOf, IsOk, IsTrue, OnErr};
ghost use Rattle.std.specs.Prelude.{OnOk};
ghost use Rattle.std.specs.Int.{w32, from_be_bytes};
ghost use Rattle.key_wrap.specs.Padded.{semiblock_count, heading, padded, padded_check, semiblocks};
ghost use Rattle.key_wrap.specs.Padded.{unwrapped_string, wrapped_padded, FitPadded, FitUnpadded};
ghost use Rattle.key_wrap.specs.Padded.{IsPadded};

use crate::errors::{InvalidCount, NotUnwrapped};
use crate::steps::{Semiblock, unwrap_string, wrap_string};
use crate::wrapping::copy_apart;
use aes_cipher::cipher::{BlockCipherDecrypt, BlockCipherEncrypt};

// The first half of the first semiblock of what is wrapped.
const PADDED_CHECK: u32 = 0xa65959a6;

// The most semiblocks that a key fills.
const MOST_FILLED: u64 = 1 << 29;

/// Pads and wraps a key of one byte or more (KWP-AE): `output` has one semiblock more than the key
/// fills.
///
/// # Errors
///
/// `InvalidCount` exactly if the key is empty or has 2^32 bytes or more, or the output isn't one
/// semiblock longer than the key fills. The output is then unchanged.
#[tactic(auto, unfolding(crate::specs::Padded::semiblock_count))]
#[inline(never)]
pub fn wrap_padded<C: BlockCipherEncrypt>(
    cipher: &C,
    key: &[u8],
    output: &mut [Semiblock],
) -> Result<(), InvalidCount>
    ensures done { IsOk result ↔ FitPadded (length key.now) (length output.old) }
    ensures wrapped { OnOk result (output.new ≡ wrapped_padded (C.round_keys cipher.now) key.now) }
    ensures untouched { OnErr result (output.new ≡ output.old) }
{
    if !fits(key.len(), output.len()) {
        return Err(InvalidCount);
    }
    if let Some((check, others)) = output.split_first_mut() {
        *check = heading_of(key.len() as u32);
        fill(key, others);
        wrap_string(cipher, check, others);
    }
    Ok(())
}

// Whether a key of this many bytes becomes that many semiblocks.
#[tactic(auto, unfolding(crate::specs::Padded::semiblock_count))]
fn fits(bytes: usize, count: usize) -> bool
    ensures { IsTrue result ↔ FitPadded bytes count }
{
    if bytes == 0 || bytes as u64 > u32::MAX as u64 {
        return false;
    }
    count == bytes.div_ceil(8) + 1
}

// The first semiblock for a key of this many bytes.
#[tactic(auto, unfolding(crate::specs::Padded::heading))]
fn heading_of(bytes: u32) -> Semiblock
    ensures { result ≡ heading bytes }
{
    let [a, b, c, d] = PADDED_CHECK.to_be_bytes();
    let [e, f, g, h] = bytes.to_be_bytes();
    [a, b, c, d, e, f, g, h]
}

// Writes a key to the semiblocks after the first, which it fills, with zeros after it.
fn fill(key: &[u8], others: &mut [Semiblock])
    requires { length others.old ≡ semiblock_count (length key.now) }
    ensures { others.new ≡ semiblocks (padded key.now) (semiblock_count (length key.now)) }
{
    for i in 0..others.len() {
        others[i] = semiblock_at(key, 8 * i);
    }
}

// The eight bytes from a place on, with zeros for those that aren't there.
fn semiblock_at(bytes: &[u8], start: usize) -> Semiblock
    requires { start < length bytes.now }
    ensures { result ≡ take 8 (drop start bytes.now) ++ replicate (start + 8 - length bytes.now) 0 }
{
    let rest = &bytes[start..];
    let count = rest.len().min(8);
    let mut semiblock = [0; 8];
    semiblock[..count].copy_from_slice(&rest[..count]);
    semiblock
}

/// Unwraps a key that was wrapped with padding (KWP-AD): `output` has one semiblock less than
/// `sealed`. Returns how many bytes the key has. They are the first bytes of the output, and zeros
/// follow. The call branches on lengths, and once on whether all that it compares is right.
///
/// # Errors
///
/// `InvalidCount` exactly if no key becomes this many semiblocks, or the output has another length.
/// The output is then unchanged. Else `Refused` exactly if the key was not wrapped with padding
/// under the key of this cipher. The output is then zeros.
#[inline(never)]
pub fn unwrap_padded<C: BlockCipherDecrypt>(
    cipher: &C,
    sealed: &[Semiblock],
    output: &mut [Semiblock],
) -> Result<u32, NotUnwrapped>
    ensures invalid { IsErrOf result NotUnwrapped.InvalidCount ↔ ¬ FitUnpadded (length output.old)
        (length sealed.now) }
    ensures done { IsOk result ↔ FitUnpadded (length output.old) (length sealed.now)
        × IsPadded (unwrapped_string (C.round_keys cipher.now) sealed.now) }
    ensures key { IfOk result (λ bytes.
        heading bytes ∷ output.new ≡ unwrapped_string (C.round_keys cipher.now) sealed.now) }
    ensures untouched { IsErrOf result NotUnwrapped.InvalidCount → output.new ≡ output.old }
    ensures zeros { IsErrOf result NotUnwrapped.Refused
        → output.new ≡ replicate (length output.old) (replicate 8 0) }
{
    let count = output.len() as u64;
    if count == 0 || count > MOST_FILLED || sealed.len() != output.len() + 1 {
        return Err(NotUnwrapped::InvalidCount);
    }
    let mut check = copy_apart(sealed, output);
    unwrap_string(cipher, &mut check, output);
    if difference(&check, output) != 0 {
        output.fill([0; 8]);
        return Err(NotUnwrapped::Refused);
    }
    Ok(length_in(&check))
}

// Returns 0 exactly if semiblocks, which begin with `check`, are those of a key with its
// padding: the bitwise or of all that differs. Never inlined, so that a compiler can't make several
// branches of the one on whether it is 0.
#[inline(never)]
fn difference(check: &Semiblock, others: &[Semiblock]) -> u64
    requires some { 1 ≤ length others.now }
    requires few { length others.now ≤ 2 ^ 29 }
    ensures { (result ≡ 0) ↔ IsPadded (check.now ∷ others.now) }
{
    let (first, bytes) = numbers_of(check);
    let padding = (8 * others.len() as u64).wrapping_sub(bytes as u64);
    let last = last_bytes(&others[others.len() - 1], (padding & 7) as u32);
    first.wrapping_sub(PADDED_CHECK) as u64 | padding >> 3 | last as u64
}

// How many bytes a key has, by the first semiblock.
fn length_in(check: &Semiblock) -> u32
    requires { take 4 check.now ≡ padded_check }
    ensures { heading result ≡ check.now }
{
    let (_, bytes) = numbers_of(check);
    bytes
}

// The two numbers that a semiblock writes.
fn numbers_of(semiblock: &Semiblock) -> (u32, u32)
    ensures first { result.0 ≡ from_be_bytes w32 (take 4 semiblock.now) }
    ensures second { result.1 ≡ from_be_bytes w32 (drop 4 semiblock.now) }
{
    let mut first = [0; 4];
    let mut second = [0; 4];
    first.copy_from_slice(&semiblock[..4]);
    second.copy_from_slice(&semiblock[4..]);
    (u32::from_be_bytes(first), u32::from_be_bytes(second))
}

// The bitwise or of the last `count` bytes of a semiblock. Masks choose these bytes: if words are
// shorter than a number, a shift of the number by a variable distance branches on the distance.
fn last_bytes(semiblock: &Semiblock, count: u32) -> u8
    requires { count < 8 }
    ensures { (result ≡ 0) ↔ (drop (8 - count) semiblock.now ≡ replicate count 0) }
{
    let mut bytes = 0;
    for i in 0..8 {
        bytes |= semiblock[7 - i] & mask_below(i as u32, count);
    }
    bytes
}

// 255 if a place is below a count, else 0. Never inlined, so that a compiler can't turn a mask into
// a branch.
#[inline(never)]
fn mask_below(place: u32, count: u32) -> u8
    requires place { place < 8 }
    requires count { count < 8 }
    ensures below { place < count → result ≡ 255 }
    ensures other { count ≤ place → result ≡ 0 }
{
    (place.wrapping_sub(count) >> 24) as u8
}
