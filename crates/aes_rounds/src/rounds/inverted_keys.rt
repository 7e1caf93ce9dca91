//! The round keys of EqInvCipher, made from those of Cipher (FIPS 197, 5.3.5).

ghost use Rattle.std.specs.Prelude.{◌≡◌, ◌<◌, [], length, slice_index_or};
ghost use Rattle.aes_planes.specs.Fips197 as fips;

use aes::hazmat::inv_mix_columns;
use aes_planes::soft::word::Block;

// The round keys of EqInvCipher in their order of use: reversed, and InvMixColumns of all but the
// first and the last (FIPS 197, 5.3.5).
#[tactic(auto, using(crate::proofs::InvertedKeys::all_inverted))]
pub(super) fn inverted_keys<const RK: usize>(round_keys: &[Block; RK]) -> [Block; RK]
    ensures { result ≡ fips.inverted_keys round_keys.now }
{
    let mut inverted = [[0; 16]; RK];
    for i in 0..RK {
        inverted[i] = inverted_key(round_keys, i);
    }
    inverted
}

// The round key of EqInvCipher at a place.
#[tactic(auto, using(crate::proofs::InvertedKeys::inverted_calls))]
fn inverted_key(round_keys: &[Block], i: usize) -> Block
    requires { i < length round_keys.now }
    ensures { result ≡ slice_index_or (fips.inverted_keys round_keys.now) i [] }
{
    let last = round_keys.len() - 1;
    let mut key = round_keys[last - i];
    if i != 0 && i != last {
        inv_mix_columns(&mut key);
    }
    key
}
