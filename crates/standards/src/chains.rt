//! The blocks of SP 800-38A, F.1, in cipher block chaining (F.2), under the keys of FIPS 197,
//! appendix A.

/// The initialization vector of F.2.
pub const IV: u128 = 0x000102030405060708090a0b0c0d0e0f;

/// Under the key of 16 bytes (F.2.1).
pub const CHAINED_128: [u128; 4] = [
    0x7649abac8119b246cee98e9b12e9197d,
    0x5086cb9b507219ee95db113a917678b2,
    0x73bed6b8e3c1743b7116e69e22229516,
    0x3ff1caa1681fac09120eca307586e1a7,
];

/// Under the key of 24 bytes (F.2.3).
pub const CHAINED_192: [u128; 4] = [
    0x4f021db243bc633d7178183a9fa071e8,
    0xb4d9ada9ad7dedf4e5e738763f69145a,
    0x571b242012fb7ae07fa9baac3df102e0,
    0x08b0e27988598881d920a9e64f5615cd,
];

/// Under the key of 32 bytes (F.2.5).
pub const CHAINED_256: [u128; 4] = [
    0xf58c4c04d6e5f1ba779eabfb5f7bfbd6,
    0x9cfc4e967edb808d679f777bc6702c7d,
    0x39f23369a9d9bacfa530e26304231461,
    0xb2eb05e2c39be9fcda6c19078c6a9d1b,
];
