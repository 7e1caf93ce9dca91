//! CTR_DRBG at values from outside, as contracts. With them the prover refuses a mistake in a
//! definition. The values are NIST's first vectors for AES-256 without a derivation function. One
//! gives 64 bytes at the second request, one has additional inputs, and one has a reseed too. A
//! model that agrees with all of NIST's vectors computed the working states between.
//!
//! `bytes n 0x..` is the n bytes that these digits write.

ghost use Rattle.std.specs.Prelude.{◌≡◌, ◌<◌, ◌≤◌, ℕ, ◌+◌, ◌-◌, ◌*◌, ◌^◌, List, [], ◌∷◌, ◌++◌};
ghost use Rattle.std.specs.Prelude.{drop, length, replicate, slice_index, take};
ghost use Rattle.aes_planes.specs.BigEndian.{bytes};
ghost use Rattle.aes_planes.specs.Fips197 as fips;
ghost use Rattle.ctr_drbg.specs.CtrDrbg.{State, seed_padded, exclusive_or, instantiate, reseed, update};
ghost use Rattle.ctr_drbg.specs.CtrDrbg.{generate, prepared, returned_bits, blocks_for};
ghost use Rattle.ctr_drbg.specs.CtrDrbg.{v_plus_one, output, v_after, temp_after};

/// A string is padded at its end. A personalization string is summed with the first bytes of the
/// entropy input, here 20 with ff. A reseed of the working state of zeros is an instantiation.
#[tactic(auto, unfolding(crate::proofs::OnLiterals::strings_on_literals))]
pub fn string_examples()
    ensures padded { seed_padded (0xff ∷ 0xfe ∷ []) ≡ 0xff ∷ 0xfe ∷ replicate 46 0 }
    ensures summed { exclusive_or (0xff ∷ 0x73 ∷ []) (0x20 ∷ 0x01 ∷ []) ≡ 0xdf ∷ 0x72 ∷ [] }
    ensures personalized { instantiate (bytes 48
        0xff5d73faa468649edda33b5cca79b0b05600419ccb7a879ddfec9db32ee494e5531b51de16a30f769262474c73bec010) (0x20 ∷ [])
        ≡ instantiate (bytes 48
        0xdf5d73faa468649edda33b5cca79b0b05600419ccb7a879ddfec9db32ee494e5531b51de16a30f769262474c73bec010) [] }
    ensures reseeded { (entropy_input additional_input : List ℕ) (counter : ℕ) →
        reseed entropy_input additional_input
        (record { key = replicate 32 0; v = replicate 16 0; reseed_counter = counter })
        ≡ instantiate entropy_input additional_input }
{}

/// How many blocks make output of no byte, of one, of a block, of a byte more, and of the most
/// bytes of a request (10.2.1.5.1, step 4). They were counted by hand.
#[tactic(auto, unfolding(crate::specs::CtrDrbg::blocks_for))]
pub fn block_count_examples()
    ensures none { blocks_for 0 ≡ 0 }
    ensures one { blocks_for 1 ≡ 1 }
    ensures block { blocks_for 16 ≡ 1 }
    ensures byte_more { blocks_for 17 ≡ 2 }
    ensures most { blocks_for (2 ^ 16) ≡ 4096 }
{}

/// There are as many blocks as fill a number of bytes, and no block more.
#[tactic(auto, unfolding(crate::specs::CtrDrbg::blocks_for))]
pub fn enough_blocks()
    ensures enough { (n : ℕ) → n ≤ 16 * blocks_for n }
    ensures needed { (n : ℕ) → 16 * blocks_for n < n + 16 }
{}

/// V is counted on by one in each turn, as a number of 128 bits whose highest byte is first. The
/// encryption of each V is put after those before it (10.2.1.2, step 2).
#[tactic(auto, unfolding(crate::proofs::OnLiterals::turns_on_literals))]
pub fn turn_rules()
    ensures carried { v_plus_one (bytes 16 0x00000000000000ffffffffffffffffff)
        ≡ bytes 16 0x00000000000001000000000000000000 }
    ensures wrapped { v_plus_one (replicate 16 0xff) ≡ replicate 16 0 }
    ensures counted { (v : List ℕ) (i : ℕ) → v_after v (i + 1) ≡ v_plus_one (v_after v i) }
    ensures begun { (key v : List ℕ) → temp_after key v 0 ≡ [] }
    ensures added { (key v : List ℕ) (i : ℕ) → temp_after key v (i + 1)
        ≡ temp_after key v i ++ fips.cipher key (v_after v (i + 1)) }
{}

/// An additional input of any length but 0 is padded, and updates the working state before the
/// output. An empty one changes nothing then (10.2.1.5.1, step 2).
#[tactic(auto, unfolding(crate::specs::CtrDrbg::prepared))]
pub fn additional_input_rules()
    ensures some { (x : ℕ) (xs : List ℕ) (s : State)
        → prepared (x ∷ xs) s ≡ update (seed_padded (x ∷ xs)) s }
    ensures none { (s : State) → prepared [] s ≡ s }
{}

/// Strings, updates and requests of any length, by their steps: padding, the sum of two strings
/// byte by byte, output, an update, and an instantiation. Then, what a request returns and leaves
/// (10.2.1.2 to 10.2.1.5.1).
#[tactic(auto, unfolding(crate::proofs::OnLiterals::requests))]
pub fn request_rules()
    ensures padded { (x : List ℕ) → seed_padded x ≡ x ++ replicate (48 - length x) 0 }
    ensures summed { (x y : List ℕ) → exclusive_or x y ≡ fips.build (length x)
        (λ i. fips.field_add (slice_index x i) (slice_index y i)) }
    ensures output { (key v : List ℕ) (n : ℕ) → output key v n
        ≡ take n (temp_after key v (blocks_for n)) }
    ensures key { (provided : List ℕ) (s : State) → (update provided s).key
        ≡ take 32 (exclusive_or (output s.key s.v 48) provided) }
    ensures v { (provided : List ℕ) (s : State) → (update provided s).v
        ≡ drop 32 (exclusive_or (output s.key s.v 48) provided) }
    ensures instantiated { (entropy_input string : List ℕ) → instantiate entropy_input string
        ≡ update (exclusive_or entropy_input (seed_padded string)) (record {
          key = replicate 32 0;
          v = replicate 16 0;
          reseed_counter = 1;
        }) }
    ensures returned { (n : ℕ) (x : List ℕ) (s : State) → returned_bits n x s
        ≡ output (prepared x s).key (prepared x s).v n }
    ensures left { (n : ℕ) (x : List ℕ) (s : State) → (generate n x s).key
        ≡ (update (seed_padded x) (record {
          key = (prepared x s).key;
          v = v_after (prepared x s).v (blocks_for n);
          reseed_counter = s.reseed_counter;
        })).key }
    ensures moved { (n : ℕ) (x : List ℕ) (s : State) → (generate n x s).v
        ≡ (update (seed_padded x) (record {
          key = (prepared x s).key;
          v = v_after (prepared x s).v (blocks_for n);
          reseed_counter = s.reseed_counter;
        })).v }
{}

/// A reseed sets reseed_counter to 1, whatever it was, and a request adds 1 to it.
#[tactic(auto, unfolding(crate::specs::CtrDrbg::reseed, crate::specs::CtrDrbg::generate))]
pub fn counter_examples()
    ensures reseeded { (entropy_input additional_input : List ℕ) (s : State)
        → (reseed entropy_input additional_input s).reseed_counter ≡ 1 }
    ensures counted { (n : ℕ) (additional_input : List ℕ) (s : State)
        → (generate n additional_input s).reseed_counter ≡ s.reseed_counter + 1 }
{}

// The blocks that are encrypted: three for the seed, three for the update after the first request,
// and the first one of the second request. The four blocks of output of the first request come
// before its update, and aren't needed here.
#[tactic(auto, using(aes_planes::proofs::OnLiterals::ciphers), unfolding(aes_planes::proofs::OnLiterals::aes_by_table))]
fn encrypted_blocks()
    ensures one { fips.cipher_with
        (fips.key_expansion
        (bytes 32 0x0000000000000000000000000000000000000000000000000000000000000000))
        (bytes 16 0x00000000000000000000000000000001)
        ≡ bytes 16 0x530f8afbc74536b9a963b4f1c4cb738b }
    ensures two { fips.cipher_with
        (fips.key_expansion
        (bytes 32 0x0000000000000000000000000000000000000000000000000000000000000000))
        (bytes 16 0x00000000000000000000000000000002)
        ≡ bytes 16 0xcea7403d4d606b6e074ec5d3baf39d18 }
    ensures three { fips.cipher_with
        (fips.key_expansion
        (bytes 32 0x0000000000000000000000000000000000000000000000000000000000000000))
        (bytes 16 0x00000000000000000000000000000003)
        ≡ bytes 16 0x726003ca37a62a74d1a2f58e7506358e }
    ensures five { fips.cipher_with
        (fips.key_expansion
        (bytes 32 0x8c52f901632d522774c08fad0eb2c33b98a701a1861aecf3d8a25860941709fd))
        (bytes 16 0x217b52142105250243c0b2c206b8f5a3)
        ≡ bytes 16 0x72f4af5c93258eb3eeec8c0cacea6c1d }
    ensures six { fips.cipher_with
        (fips.key_expansion
        (bytes 32 0x8c52f901632d522774c08fad0eb2c33b98a701a1861aecf3d8a25860941709fd))
        (bytes 16 0x217b52142105250243c0b2c206b8f5a4)
        ≡ bytes 16 0x1978a4fad44312725f1ac43b167f2d52 }
    ensures seven { fips.cipher_with
        (fips.key_expansion
        (bytes 32 0x8c52f901632d522774c08fad0eb2c33b98a701a1861aecf3d8a25860941709fd))
        (bytes 16 0x217b52142105250243c0b2c206b8f5a5)
        ≡ bytes 16 0xe86f6d07dfb551cebad80e6bf6830ac4 }
    ensures first { fips.cipher_with
        (fips.key_expansion
        (bytes 32 0x72f4af5c93258eb3eeec8c0cacea6c1d1978a4fad44312725f1ac43b167f2d52))
        (bytes 16 0xe86f6d07dfb551cebad80e6bf6830ac5)
        ≡ bytes 16 0xd1c07cd95af8a7f11012c84ce48bb8cb }
{}

/// The working state of the seed, and that after the first request of 64 bytes. Then the first
/// block of the second request, which is NIST's, and its leftmost five bytes.
pub fn two_requests_example()
    ensures seeded { instantiate
        (bytes 48 0xdf5d73faa468649edda33b5cca79b0b05600419ccb7a879ddfec9db32ee494e5531b51de16a30f769262474c73bec010) []
        ≡ record {
          key = bytes 32
              0x8c52f901632d522774c08fad0eb2c33b98a701a1861aecf3d8a25860941709fd;
          v =
              bytes 16 0x217b52142105250243c0b2c206b8f59e;
          reseed_counter = 1;
        } }
    ensures first { generate 64 [] (record {
      key = bytes 32 0x8c52f901632d522774c08fad0eb2c33b98a701a1861aecf3d8a25860941709fd;
      v = bytes 16 0x217b52142105250243c0b2c206b8f59e;
      reseed_counter = 1;
    })
        ≡ record {
          key = bytes 32
              0x72f4af5c93258eb3eeec8c0cacea6c1d1978a4fad44312725f1ac43b167f2d52;
          v =
              bytes 16 0xe86f6d07dfb551cebad80e6bf6830ac4;
          reseed_counter = 2;
        } }
    ensures second { returned_bits 16 [] (record {
      key = bytes 32 0x72f4af5c93258eb3eeec8c0cacea6c1d1978a4fad44312725f1ac43b167f2d52;
      v = bytes 16 0xe86f6d07dfb551cebad80e6bf6830ac4;
      reseed_counter = 2;
    }) ≡ bytes 16 0xd1c07cd95af8a7f11012c84ce48bb8cb }
    ensures short { returned_bits 5 [] (record {
      key = bytes 32 0x72f4af5c93258eb3eeec8c0cacea6c1d1978a4fad44312725f1ac43b167f2d52;
      v = bytes 16 0xe86f6d07dfb551cebad80e6bf6830ac4;
      reseed_counter = 2;
    }) ≡ bytes 5 0xd1c07cd95a }
{
    encrypted_blocks();
}

// The blocks that are encrypted where both requests have an additional input. Three are for the
// update before the first output, three for the update after it, and three for the update before
// the second output. The last one is the first block of the second output.
#[tactic(auto, using(aes_planes::proofs::OnLiterals::ciphers), unfolding(aes_planes::proofs::OnLiterals::aes_by_table))]
fn encrypted_with_inputs()
    ensures prepared_one { fips.cipher_with
        (fips.key_expansion
        (bytes 32 0x8c717e36ee6fa534a17a5f8c511f51273192e6dbdb87124fa3644d02ef235d62))
        (bytes 16 0x17b0cc9467a617c1e26a28fe20660fa0)
        ≡ bytes 16 0xdb0672fc41e306bb40ec790f81527d59 }
    ensures prepared_two { fips.cipher_with
        (fips.key_expansion
        (bytes 32 0x8c717e36ee6fa534a17a5f8c511f51273192e6dbdb87124fa3644d02ef235d62))
        (bytes 16 0x17b0cc9467a617c1e26a28fe20660fa1)
        ≡ bytes 16 0x52ef47930735a3ac370499504b4a8032 }
    ensures prepared_three { fips.cipher_with
        (fips.key_expansion
        (bytes 32 0x8c717e36ee6fa534a17a5f8c511f51273192e6dbdb87124fa3644d02ef235d62))
        (bytes 16 0x17b0cc9467a617c1e26a28fe20660fa2)
        ≡ bytes 16 0xea06c0fd9d6e044aa3c77a9bc58048c1 }
    ensures updated_one { fips.cipher_with
        (fips.key_expansion
        (bytes 32 0xd00e69572d97ded00aed77226ccbac175e777f64c4e3395153f52f333c93dcee))
        (bytes 16 0x5df02caec58d552a9704490728fe5efe)
        ≡ bytes 16 0x412da136e68bf5e9ee4248e16815edd5 }
    ensures updated_two { fips.cipher_with
        (fips.key_expansion
        (bytes 32 0xd00e69572d97ded00aed77226ccbac175e777f64c4e3395153f52f333c93dcee))
        (bytes 16 0x5df02caec58d552a9704490728fe5eff)
        ≡ bytes 16 0x65606259a890609f7443eef6dd7a220e }
    ensures updated_three { fips.cipher_with
        (fips.key_expansion
        (bytes 32 0xd00e69572d97ded00aed77226ccbac175e777f64c4e3395153f52f333c93dcee))
        (bytes 16 0x5df02caec58d552a9704490728fe5f00)
        ≡ bytes 16 0x5829422223028f4695646d1ae55d2d4e }
    ensures next_one { fips.cipher_with
        (fips.key_expansion
        (bytes 32 0x4a25ba9d8aff2d82a44346cc858c3c9b69f85aae6b46fa6210b25895aaa37ed2))
        (bytes 16 0xefdfae717be1de26a1a75e8608233b77)
        ≡ bytes 16 0x7531ea0dd63c0a7da9e689f013a22e9c }
    ensures next_two { fips.cipher_with
        (fips.key_expansion
        (bytes 32 0x4a25ba9d8aff2d82a44346cc858c3c9b69f85aae6b46fa6210b25895aaa37ed2))
        (bytes 16 0xefdfae717be1de26a1a75e8608233b78)
        ≡ bytes 16 0x1deea3f5a62e69f19ab41dbac51bb1b3 }
    ensures next_three { fips.cipher_with
        (fips.key_expansion
        (bytes 32 0x4a25ba9d8aff2d82a44346cc858c3c9b69f85aae6b46fa6210b25895aaa37ed2))
        (bytes 16 0xefdfae717be1de26a1a75e8608233b79)
        ≡ bytes 16 0x4c1e4b86721569797515319b7b9e2d1b }
    ensures output { fips.cipher_with
        (fips.key_expansion
        (bytes 32 0xbfb0659e5cdccd895ce16d3fffb2c926e8f140be2f8b6b06ce66cf04b68ea3bc))
        (bytes 16 0xade54aba15b94c79c6c44ae8263eb776)
        ≡ bytes 16 0x6808268b13e236f642c06deba2494496 }
{}

/// NIST's first vector with a personalization string and additional inputs. States the working
/// state after the first request of 64 bytes, and the first block of the second request, which is
/// NIST's.
pub fn additional_inputs_example()
    ensures first { generate 64
        (bytes 48 0x0b081bab6c74d86b4a010e2ded99d14e0c9838f7c3d69afd64f1b66377d95cdcb7f6ec5358e3516034c3339ced7e1638) (record {
          key = bytes 32 0x8c717e36ee6fa534a17a5f8c511f51273192e6dbdb87124fa3644d02ef235d62;
          v = bytes 16 0x17b0cc9467a617c1e26a28fe20660f9f;
          reseed_counter = 1;
        })
        ≡ record {
          key = bytes 32
              0x4a25ba9d8aff2d82a44346cc858c3c9b69f85aae6b46fa6210b25895aaa37ed2;
          v =
              bytes 16 0xefdfae717be1de26a1a75e8608233b76;
          reseed_counter = 2;
        } }
    ensures second { returned_bits 16
        (bytes 48 0xca818f938ae0c7f4f507e4cfec10e7baf51fe34b89a502f754d2d2be7395120fe1fb013c67ac2500b3d17b735da09a6e) (record {
          key = bytes 32 0x4a25ba9d8aff2d82a44346cc858c3c9b69f85aae6b46fa6210b25895aaa37ed2;
          v = bytes 16 0xefdfae717be1de26a1a75e8608233b76;
          reseed_counter = 2;
        })
        ≡ bytes 16 0x6808268b13e236f642c06deba2494496 }
{
    encrypted_with_inputs();
}

// The blocks that are encrypted for a reseed.
#[tactic(auto, using(aes_planes::proofs::OnLiterals::ciphers), unfolding(aes_planes::proofs::OnLiterals::aes_by_table))]
fn encrypted_for_reseed()
    ensures one { fips.cipher_with
        (fips.key_expansion
        (bytes 32 0xa8f73953b9c86f7beb01c7d26f09e2899a53a3278e3a54ffebdc7ec61d90cb98))
        (bytes 16 0xd8fa421b2aabc209bb641195ebc2a587)
        ≡ bytes 16 0x2b57fdd2e66e85f4af2d618e99a28dbd }
    ensures two { fips.cipher_with
        (fips.key_expansion
        (bytes 32 0xa8f73953b9c86f7beb01c7d26f09e2899a53a3278e3a54ffebdc7ec61d90cb98))
        (bytes 16 0xd8fa421b2aabc209bb641195ebc2a588)
        ≡ bytes 16 0xeaaa6a896a31e62af746c8d7c1d22d17 }
    ensures three { fips.cipher_with
        (fips.key_expansion
        (bytes 32 0xa8f73953b9c86f7beb01c7d26f09e2899a53a3278e3a54ffebdc7ec61d90cb98))
        (bytes 16 0xd8fa421b2aabc209bb641195ebc2a589)
        ≡ bytes 16 0x484554529c541f47169de3a88c3f4794 }
{}

/// NIST's first vector with a personalization string, additional inputs and a reseed. States the
/// working state after the reseed, from that of the seed.
pub fn reseed_example()
    ensures { reseed
        (bytes 48 0xa42407931bfeca70e6ee5dd197021a129525051c07468e8b25587c5ad50abe9204e882fe847b8fd47cf7b4360e5aa034)
        (bytes 48 0xee4c88d1eb05f4853663eada501d2fc4b4984b283a88db579af2113031e03d9bc570de943dd168918f3ba8065581fea7) (record {
          key = bytes 32 0xa8f73953b9c86f7beb01c7d26f09e2899a53a3278e3a54ffebdc7ec61d90cb98;
          v = bytes 16 0xd8fa421b2aabc209bb641195ebc2a586;
          reseed_counter = 1;
        })
        ≡ record {
          key = bytes 32
              0x613f72901695bb017fa0d6855ebdb86bcb1724bd57ffb3f648eca5bd2538ae1e;
          v =
              bytes 16 0x89dd083825fef802e551ff98d7e41907;
          reseed_counter = 1;
        } }
{
    encrypted_for_reseed();
}
