//! Lines, what they are answered, and faults, by the table of docs/AES-KAT.md.

/// Lines that are answered.
///
/// Blocks under keys of each size are those of FIPS 197, appendices C.1 to C.3 and B, and blocks of
/// zeros by OpenSSL. Rounds and columns are those of C.1. The S-box turns 00 into 63, and the other
/// steps don't change blocks of equal bytes.
pub(super) const ANSWERED: [(&str, &str); 27] = [
    (
        "enc 000102030405060708090a0b0c0d0e0f 00112233445566778899aabbccddeeff",
        "69c4e0d86a7b0430d8cdb78070b4c55a",
    ),
    (
        "dec 000102030405060708090a0b0c0d0e0f 69c4e0d86a7b0430d8cdb78070b4c55a",
        "00112233445566778899aabbccddeeff",
    ),
    (
        "enc 000102030405060708090a0b0c0d0e0f1011121314151617 00112233445566778899aabbccddeeff",
        "dda97ca4864cdfe06eaf70a0ec0d7191",
    ),
    (
        "dec 000102030405060708090a0b0c0d0e0f1011121314151617 dda97ca4864cdfe06eaf70a0ec0d7191",
        "00112233445566778899aabbccddeeff",
    ),
    (
        "enc 000102030405060708090a0b0c0d0e0f101112131415161718191a1b1c1d1e1f 00112233445566778899aabbccddeeff",
        "8ea2b7ca516745bfeafc49904b496089",
    ),
    (
        "dec 000102030405060708090a0b0c0d0e0f101112131415161718191a1b1c1d1e1f 8ea2b7ca516745bfeafc49904b496089",
        "00112233445566778899aabbccddeeff",
    ),
    (
        "enc 2b7e151628aed2a6abf7158809cf4f3c 3243f6a8885a308d313198a2e0370734",
        "3925841d02dc09fbdc118597196a0b32",
    ),
    (
        "dec 2b7e151628aed2a6abf7158809cf4f3c 3925841d02dc09fbdc118597196a0b32",
        "3243f6a8885a308d313198a2e0370734",
    ),
    (
        "enc 00000000000000000000000000000000 00000000000000000000000000000000",
        "66e94bd4ef8a2c3b884cfa59ca342b2e",
    ),
    (
        "dec 00000000000000000000000000000000 66e94bd4ef8a2c3b884cfa59ca342b2e",
        "00000000000000000000000000000000",
    ),
    (
        "enc 000000000000000000000000000000000000000000000000 00000000000000000000000000000000",
        "aae06992acbf52a3e8f4a96ec9300bd7",
    ),
    (
        "dec 000000000000000000000000000000000000000000000000 aae06992acbf52a3e8f4a96ec9300bd7",
        "00000000000000000000000000000000",
    ),
    (
        "enc 0000000000000000000000000000000000000000000000000000000000000000 00000000000000000000000000000000",
        "dc95c078a2408989ad48a21492842087",
    ),
    (
        "dec 0000000000000000000000000000000000000000000000000000000000000000 dc95c078a2408989ad48a21492842087",
        "00000000000000000000000000000000",
    ),
    (
        "enc 000102030405060708090A0B0C0D0E0F 00112233445566778899AABBCCDDEEFF",
        "69c4e0d86a7b0430d8cdb78070b4c55a",
    ),
    ("enc 000102030405060708090a0b0c0d0e0f", ""),
    ("enc 000102030405060708090a0b0c0d0e0f ", ""),
    ("dec 000102030405060708090a0b0c0d0e0f1011121314151617", ""),
    (
        "dec 000102030405060708090a0b0c0d0e0f101112131415161718191a1b1c1d1e1f ",
        "",
    ),
    (
        "round 00102030405060708090a0b0c0d0e0f0 d6aa74fdd2af72fadaa678f1d6ab76fe",
        "89d810e8855ace682d1843d8cb128fe4",
    ),
    (
        "invround 7ad5fda789ef4e272bca100b3d9ff59f 13aa29be9c8faff6f770f58000f7bf03",
        "54d990a16ba09ab596bbf40ea111702f",
    ),
    (
        "round 00000000000000000000000000000000 00000000000000000000000000000000",
        "63636363636363636363636363636363",
    ),
    (
        "invround 63636363636363636363636363636363 00000000000000000000000000000000",
        "00000000000000000000000000000000",
    ),
    (
        "mix 6353e08c0960e104cd70b751bacad0e7",
        "5f72641557f5bc92f7be3b291db9f91a",
    ),
    (
        "invmix bd6e7c3df2b5779e0b61216e8b10b689",
        "4773b91ff72f354361cb018ea1e6cf2c",
    ),
    (
        "mix 63636363636363636363636363636363",
        "63636363636363636363636363636363",
    ),
    (
        "invmix 63636363636363636363636363636363",
        "63636363636363636363636363636363",
    ),
];

/// Faults, each with the lines that are at fault so.
pub(super) const AT_FAULT: [(&str, &[&[u8]]); 4] = [
    (
        "error command",
        &[
            b"",
            b" ",
            b"enc",
            b"dec",
            b"mix",
            b"invmix",
            b"sched",
            b"round",
            b"invround",
            b"foo",
            b"encrypt 00 00",
            b"ENC 000102030405060708090a0b0c0d0e0f 00112233445566778899aabbccddeeff",
            b" enc 000102030405060708090a0b0c0d0e0f 00112233445566778899aabbccddeeff",
            b"enc 000102030405060708090a0b0c0d0e0f  00112233445566778899aabbccddeeff",
            b"enc 000102030405060708090a0b0c0d0e0f 00112233445566778899aabbccddeeff ",
            b"round 00102030405060708090a0b0c0d0e0f0",
            b"mix 6353e08c0960e104cd70b751bacad0e7 6353e08c0960e104cd70b751bacad0e7",
            b"sched 000102030405060708090a0b0c0d0e0f ",
            b"mix 0g 0g",
            b"mix\r",
            b"\r",
            b"\xff",
        ],
    ),
    (
        "error hex",
        &[
            b"enc 00 0g",
            b"enc 0g 00",
            b"enc 0 00",
            b"mix 000",
            b"round zz 00",
            b"enc 000102030405060708090a0b0c0d0e0f 0g",
            b"enc 000102030405060708090a0b0c0d0e0f 00112233445566778899aabbccddeeff\r",
            b"enc 000102030405060708090a0b0c0d0e0f\r",
            b"enc 000102030405060708090a0b0c0d0e0f \r",
            b"mix \xff",
            b"mix \x00\xff",
        ],
    ),
    (
        "error key",
        &[
            b"enc 00 0000",
            b"enc 00 00",
            b"enc 00",
            b"enc 00 00112233445566778899aabbccddee",
            b"enc  000102030405060708090a0b0c0d0e0f",
            b"enc ",
            b"dec  ",
            b"sched ",
            b"sched 0001020304050607",
            b"sched 000102030405060708090a0b0c0d0e0f10111213",
            b"enc 000102030405060708090a0b0c0d0e0f101112131415161718 00112233445566778899aabbccddeeff",
            b"dec 000102030405060708090a0b0c0d0e0f101112131415161718191a1b1c1d1e1f20 00112233445566778899aabbccddeeff",
        ],
    ),
    (
        "error block",
        &[
            b"enc 000102030405060708090a0b0c0d0e0f 00112233445566778899aabbccddee",
            b"dec 000102030405060708090a0b0c0d0e0f1011121314151617 00112233445566778899aabbccddeeff00",
            b"enc 000102030405060708090a0b0c0d0e0f101112131415161718191a1b1c1d1e1f 00",
            b"mix ",
            b"mix 6353e08c0960e104cd70b751bacad0",
            b"invmix 6353e08c0960e104cd70b751bacad0",
            b"mix 00112233445566778899aabbccddeeff00112233445566778899aabbccddeeff",
            b"round 00102030405060708090a0b0c0d0e0f0 000102030405060708090a0b0c0d0e0f1011121314151617",
            b"invround 00 13aa29be9c8faff6f770f58000f7bf03",
        ],
    ),
];

/// Whole texts, with their answers and the status. A fault is remembered to the end. By FIPS 197,
/// 5.2, SubWord of a zero word is four 63, that of four 63 is four fb, and the first round constant
/// is 01; the other round keys of keys of zeros were worked out by the definition, in Python.
pub(super) const TEXTS: [(&str, &str, u8); 8] = [
    ("", "", 0),
    ("\n\n", "error command\nerror command\n", 1),
    (
        "mix 00\nmix 63636363636363636363636363636363\ninvmix 6353e08c0960e104cd70b751bacad0e",
        "error block\n63636363636363636363636363636363\nerror hex\n",
        1,
    ),
    (
        "enc 00 00\nenc 000102030405060708090a0b0c0d0e0f 0g\nenc \
            000102030405060708090a0b0c0d0e0f 00112233445566778899aabbccddee\nfoo\n\nmix\nround \
            00112233445566778899aabbccddeeff 000102030405060708090a0b0c0d0e0f1011121314151617",
        "error key\nerror hex\nerror block\nerror command\nerror command\nerror command\nerror \
            block\n",
        1,
    ),
    (
        "enc 000102030405060708090a0b0c0d0e0f\nenc 000102030405060708090a0b0c0d0e0f \nenc \
            000102030405060708090a0b0c0d0e0f 00112233445566778899aabbccddeeff\n",
        "\n\n69c4e0d86a7b0430d8cdb78070b4c55a\n",
        0,
    ),
    (
        "sched 00000000000000000000000000000000",
        "00000000000000000000000000000000 62636363626363636263636362636363 \
            9b9898c9f9fbfbaa9b9898c9f9fbfbaa 90973450696ccffaf2f457330b0fac99 \
            ee06da7b876a1581759e42b27e91ee2b 7f2e2b88f8443e098dda7cbbf34b9290 \
            ec614b851425758c99ff09376ab49ba7 217517873550620bacaf6b3cc61bf09b \
            0ef903333ba9613897060a04511dfa9f b1d4d8e28a7db9da1d7bb3de4c664941 \
            b4ef5bcb3e92e21123e951cf6f8f188e\n",
        0,
    ),
    (
        "sched 000000000000000000000000000000000000000000000000",
        "00000000000000000000000000000000 00000000000000006263636362636363 \
            62636363626363636263636362636363 9b9898c9f9fbfbaa9b9898c9f9fbfbaa \
            9b9898c9f9fbfbaa90973450696ccffa f2f457330b0fac9990973450696ccffa \
            c81d19a9a171d65353858160588a2df9 c81d19a9a171d6537bebf49bda9a22c8 \
            891fa3a8d1958e51198897f8b8f941ab c26896f718f2b43f91ed1797407899c6 \
            59f00e3ee1094f9583ecbc0f9b1e0830 0af31fa74a8b8661137b885ff272c7ca \
            432ac886d834c0b6d2c7df11984c5970\n",
        0,
    ),
    (
        "sched 0000000000000000000000000000000000000000000000000000000000000000",
        "00000000000000000000000000000000 00000000000000000000000000000000 \
            62636363626363636263636362636363 aafbfbfbaafbfbfbaafbfbfbaafbfbfb \
            6f6c6ccf0d0f0fac6f6c6ccf0d0f0fac 7d8d8d6ad77676917d8d8d6ad7767691 \
            5354edc15e5be26d31378ea23c38810e 968a81c141fcf7503c717a3aeb070cab \
            9eaa8f28c0f16d45f1c6e3e7cdfe62e9 2b312bdf6acddc8f56bca6b5bdbbaa1e \
            6406fd52a4f79017553173f098cf1119 6dbba90b0776758451cad331ec71792f \
            e7b0e89c4347788b16760b7b8eb91a62 74ed0ba1739b7e252251ad14ce20d43b \
            10f80a1753bf729c45c979e7cb706385\n",
        0,
    ),
];
