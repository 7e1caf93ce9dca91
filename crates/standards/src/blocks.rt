//! The blocks of SP 800-38A, F.1, encrypted under the keys of FIPS 197, appendix A; and blocks that
//! differ from one another.

/// The four blocks that SP 800-38A encrypts in its examples.
pub const PLAIN: [u128; 4] = [
    0x6bc1bee22e409f96e93d7e117393172a,
    0xae2d8a571e03ac9c9eb76fac45af8e51,
    0x30c81c46a35ce411e5fbc1191a0a52ef,
    0xf69f2445df4f9b17ad2b417be66c3710,
];

/// The four blocks encrypted under the key of 16 bytes (F.1.1).
pub const ENCRYPTED_128: [u128; 4] = [
    0x3ad77bb40d7a3660a89ecaf32466ef97,
    0xf5d3d58503b9699de785895a96fdbaaf,
    0x43b1cd7f598ece23881b00e3ed030688,
    0x7b0c785e27e8ad3f8223207104725dd4,
];

/// The four blocks encrypted under the key of 24 bytes (F.1.3).
pub const ENCRYPTED_192: [u128; 4] = [
    0xbd334f1d6e45f25ff712a214571fa5cc,
    0x974104846d0ad3ad7734ecb3ecee4eef,
    0xef7afd2270e2e60adce0ba2face6444e,
    0x9a4b41ba738d6c72fb16691603c18e0e,
];

/// The four blocks encrypted under the key of 32 bytes (F.1.5).
pub const ENCRYPTED_256: [u128; 4] = [
    0xf3eed1bdb5d2a03c064b5a7e3db181f8,
    0x591ccb10d410ed26dc5ba74a31362870,
    0xb6ed21b99ca6f4f9f153e7b1beafed1d,
    0x23304b7a39f9f3ff067d8d8f9e24ecc7,
];

/// Blocks by their hexadecimal digits.
pub fn blocks<const N: usize>(digits: &[u128; N]) -> [[u8; 16]; N] {
    let mut blocks = [[0; 16]; N];
    for i in 0..N {
        blocks[i] = digits[i].to_be_bytes();
    }
    blocks
}

/// 24 blocks, no two of them alike.
pub fn different_blocks() -> [[u8; 16]; 24] {
    let mut blocks = [[0; 16]; 24];
    let mut block = 0x00112233445566778899aabbccddeeff_u128;
    for i in 0..24usize {
        blocks[i] = block.to_be_bytes();
        block = block
            .wrapping_mul(0x5851f42d4c957f2d14057b7ef767814f)
            .wrapping_add(1);
    }
    blocks
}
