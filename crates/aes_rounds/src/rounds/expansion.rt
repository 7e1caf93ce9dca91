//! KeyExpansion for users of these types: the round keys of a key of each size.

ghost use Rattle.std.specs.Prelude.{◌≡◌};
ghost use Rattle.aes_planes.specs.Fips197 as fips;

use aes::expansion;
use aes_planes::soft::word::Block;

/// KeyExpansion of a key of 16 bytes (FIPS 197, 5.2).
pub fn expand_128(key: &[u8; 16]) -> [Block; 11]
    ensures { result ≡ fips.key_expansion key.now }
{
    expansion::expand_128(key)
}

/// KeyExpansion of a key of 24 bytes (FIPS 197, 5.2).
pub fn expand_192(key: &[u8; 24]) -> [Block; 13]
    ensures { result ≡ fips.key_expansion key.now }
{
    expansion::expand_192(key)
}

/// KeyExpansion of a key of 32 bytes (FIPS 197, 5.2).
pub fn expand_256(key: &[u8; 32]) -> [Block; 15]
    ensures { result ≡ fips.key_expansion key.now }
{
    expansion::expand_256(key)
}
