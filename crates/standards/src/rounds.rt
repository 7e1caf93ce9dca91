//! The rounds of FIPS 197, appendix C.1.

/// Cipher: the states at the start of rounds 1 to 9.
pub const STATES: [u128; 9] = [
    0x00102030405060708090a0b0c0d0e0f0,
    0x89d810e8855ace682d1843d8cb128fe4,
    0x4915598f55e5d7a0daca94fa1f0a63f7,
    0xfa636a2825b339c940668a3157244d17,
    0x247240236966b3fa6ed2753288425b6c,
    0xc81677bc9b7ac93b25027992b0261996,
    0xc62fe109f75eedc3cc79395d84f9cf5d,
    0xd1876c0f79c4300ab45594add66ff41f,
    0xfde3bad205e5d0d73547964ef1fe37f1,
];

/// The round keys of rounds 1 to 8 there.
pub const ROUND_KEYS: [u128; 8] = [
    0xd6aa74fdd2af72fadaa678f1d6ab76fe,
    0xb692cf0b643dbdf1be9bc5006830b3fe,
    0xb6ff744ed2c2c9bf6c590cbf0469bf41,
    0x47f7f7bc95353e03f96c32bcfd058dfd,
    0x3caaa3e8a99f9deb50f3af57adf622aa,
    0x5e390f7df7a69296a7553dc10aa31f6b,
    0x14f9701ae35fe28c440adf4d4ea9c026,
    0x47438735a41c65b9e016baf4aebf7ad2,
];

/// EqInvCipher: the states at the start of rounds 1 to 9.
pub const INVERSE_STATES: [u128; 9] = [
    0x7ad5fda789ef4e272bca100b3d9ff59f,
    0x54d990a16ba09ab596bbf40ea111702f,
    0x3e1c22c0b6fcbf768da85067f6170495,
    0xb458124c68b68a014b99f82e5f15554c,
    0xe8dab6901477d4653ff7f5e2e747dd4f,
    0x36339d50f9b539269f2c092dc4406d23,
    0x2d6d7ef03f33e334093602dd5bfb12c7,
    0x3bd92268fc74fb735767cbe0c0590e2d,
    0xa7be1a6997ad739bd8c9ca451f618b61,
];

/// The round keys of rounds 1 to 8 there.
pub const INVERSE_ROUND_KEYS: [u128; 8] = [
    0x13aa29be9c8faff6f770f58000f7bf03,
    0x1362a4638f2586486bff5a76f7874a83,
    0x8d82fc749c47222be4dadc3e9c7810f5,
    0x72e3098d11c5de5f789dfe1578a2cccb,
    0x2ec410276326d7d26958204a003f32de,
    0xa8a2f5044de2c7f50a7ef79869671294,
    0xc7c6e391e54032f1479c306d6319e50c,
    0xa0db02992286d160a2dc029c2485d561,
];

/// The state before and after MixColumns in round 1 of Cipher.
pub const MIXED: [u128; 2] = [
    0x6353e08c0960e104cd70b751bacad0e7,
    0x5f72641557f5bc92f7be3b291db9f91a,
];

/// The state before and after InvMixColumns in round 1 of InvCipher.
pub const INVERSE_MIXED: [u128; 2] = [
    0xbd6e7c3df2b5779e0b61216e8b10b689,
    0x4773b91ff72f354361cb018ea1e6cf2c,
];
