//! CTR_DRBG: NIST's values, reseeded and not, with other inputs and without.

use super::cases::{decoded, word};
use aes_hybrid::Aes256Enc;
use ctr_drbg::{CtrDrbg, SEED_LENGTH};

// NIST's vectors for AES-256 without a derivation function and without prediction resistance (the
// files of drbgtestvectors.zip, CAVS 14.3): the first one of four kinds. OpenSSL 3.0.20 has them in
// test/recipes/30-test_evp_data/evprand.txt. A row has the entropy input, the personalization
// string, the entropy input and the additional input of reseeding, the additional inputs of both
// requests, and the bits that the second one returns. Both ask for 64 bytes.
const VECTORS: [&str; 4] = [
    "df5d73faa468649edda33b5cca79b0b05600419ccb7a879ddfec9db32ee494e5531b51de16a30f769262474c73bec010 - - \
     - - - \
     d1c07cd95af8a7f11012c84ce48bb8cb87189e99d40fccb1771c619bdf82ab2280b1dc2f2581f39164f7ac0c510494b3a43c41b7db17514c87b107ae793e01c5",
    "0dd4d80062ecc0f359efbe7723020be9b88b550fe74088094069e74428395856f63eed4f5b0e7d1e006f0eaff74f638c \
     d2aa2ccd4bc6537e51f6550ab6d6294547bef3e971a7f128e4436f957de9982c93ee22110b0e40ab33a7d3dfa22f599d - - \
     0b081bab6c74d86b4a010e2ded99d14e0c9838f7c3d69afd64f1b66377d95cdcb7f6ec5358e3516034c3339ced7e1638 \
     ca818f938ae0c7f4f507e4cfec10e7baf51fe34b89a502f754d2d2be7395120fe1fb013c67ac2500b3d17b735da09a6e \
     6808268b13e236f642c06deba2494496e7003c937ebf6f7cb7c92104ea090f18484aa075560d7844a06eb559948c93b26ae40f2db98ecb53ad593eb4c78f82b1",
    "e4bc23c5089a19d86f4119cb3fa08c0a4991e0a1def17e101e4c14d9c323460a7c2fb58e0b086c6c57b55f56cae25bad - \
     fd85a836bba85019881e8c6bad23c9061adc75477659acaea8e4a01dfe07a1832dad1c136f59d70f8653a5dc118663d6 - - \
     - \
     b2cb8905c05e5950ca31895096be29ea3d5a3b82b269495554eb80fe07de43e193b9e7c3ece73b80e062b1c1f68202fbb1c52a040ea2478864295282234aaada",
    "ae7ebe062971f5eb32e5b21444750785de816595ad2cbe80a209c8f8ab04b5468166de8c6ae522d8f10b56386a3b424f \
     55860dae57fcac297087c137efb796878a75868f6e7681114e9b73ed0c67e3c62bfc9f5d77e8caa59bcdb223f4ffd247 \
     a42407931bfeca70e6ee5dd197021a129525051c07468e8b25587c5ad50abe9204e882fe847b8fd47cf7b4360e5aa034 \
     ee4c88d1eb05f4853663eada501d2fc4b4984b283a88db579af2113031e03d9bc570de943dd168918f3ba8065581fea7 \
     4b4b03ef19b0f259dca2b3ee3ae4cd86c3895a784b3d8eee043a2003c08289f8fffdad141e6b1ab2174d8d5d79c1e581 \
     3062b33f116b46e20fe3c354726ae9b2a3a4c51922c8107863cb86f1f0bdad7554075659d91c371e2b11b1e8106a1ed5 \
     0d270518baeafac160ff1cb28c11ef68712c764c0c01674e6c9ca2cc9c7e0e8accfd3c753635ee070081eee7628af6187fbc2854b3c204461a796cf3f3fcb092",
];

// An input of a vector, which has no bytes or as many as a seed.
#[derive(Drop)]
struct Input {
    bytes: [u8; SEED_LENGTH],
    length: usize,
}

impl Input {
    fn of(vector: &str, number: usize) -> Input {
        let digits = word(vector, number);
        Input {
            bytes: decoded(digits),
            length: digits.len() / 2,
        }
    }

    fn bytes(&self) -> &[u8] {
        &self.bytes[..self.length.min(SEED_LENGTH)]
    }
}

// Makes a generator of a vector, reseeds it if the vector does, and writes what the second request
// returns.
fn answer(vector: &str, output: &mut [u8; 64]) -> Option<()> {
    let mut generator = CtrDrbg::<Aes256Enc>::instantiate(
        Input::of(vector, 0).bytes(),
        Input::of(vector, 1).bytes(),
    ).ok()?;
    let entropy_input = Input::of(vector, 2);
    if entropy_input.length != 0 {
        generator
            .reseed(entropy_input.bytes(), Input::of(vector, 3).bytes())
            .ok()?;
    }
    generator
        .generate(Input::of(vector, 4).bytes(), output)
        .ok()?;
    generator
        .generate(Input::of(vector, 5).bytes(), output)
        .ok()
}

#[test]
fn vectors_of_nist(rt: HostRuntime) {
    for vector in VECTORS {
        let mut output = [0; 64];
        assert!(rt; answer(vector, &mut output).is_some());
        assert!(rt; output == decoded(word(vector, 6)));
    }
}
