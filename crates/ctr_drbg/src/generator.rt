//! The generator that a caller keeps. It is made from a seed, reseeded, and asked for random bytes.

ghost use Rattle.std.specs.Prelude.{◌≡◌, ◌≢◌, ◌↔◌, ◌⊎◌, ◌<◌, ◌≤◌, ◌+◌, ◌-◌, ◌^◌, length, take, drop};
ghost use Rattle.std.specs.Prelude.{replicate, IsErr, IsErrOf, IfOk, OnOk, OnErr};
ghost use Rattle.ctr_drbg.specs.CtrDrbg as nist;

use crate::errors::{InvalidSeed, NotGenerated};
use crate::output::{add_output, moved_on, put_output};
use crate::seeds::{SEED_LENGTH, SeedRoom, check_lengths, put_padded, put_seed_material};
use aes_cipher::cipher::{Block, BlockCipherEncrypt, KeyInit};
use aes_cipher::not_clone::NotClone;
use aes_cipher::zeroize::{MustWipe, Wiped, ZeroizeOnDrop, wipe_stack};
use std::marker::Model;

/// How many bytes one request may ask for: 2^19 bits, max_number_of_bits_per_request (10.2.1, table
/// 3).
pub const LONGEST_REQUEST: usize = 1 << 16;

/// How many requests there may be before the next reseed: reseed_interval (10.2.1, table 3).
pub const RESEED_INTERVAL: u64 = 1 << 48;

// How many bytes a key has: keylen (10.2.1, table 3).
const KEY_LENGTH: usize = 32;

// The most bytes of stack of a call.
const CALL_STACK: usize = 4096;

// Makes a cipher. The key isn't refused, since it is as long as the cipher's keys are.
fn cipher_of_key<C: KeyInit + Drop>(key: &[u8]) -> C
    requires keys { C.KEY_SIZE ≡ 32 }
    requires length { length key.now ≡ 32 }
    ensures { C.own_key result ≡ key.now }
{
    C::new_from_slice(key).unwrap()
}

/// CTR_DRBG over a cipher with keys of 32 bytes, without a derivation function (SP 800-90A Rev. 1,
/// 10.2.1). Without its seed nobody can tell its bytes from random ones. Contracts see a value as
/// its working state. A value is wiped when it is dropped, if its cipher is, as the ciphers of this
/// library are. A value is never copied: two generators with one working state give the same bytes.
#[derive(Drop)]
pub struct CtrDrbg<C: BlockCipherEncrypt + KeyInit> {
    cipher: C,
    v: Wiped<[Block; 1]>,
    reseed_counter: u64,
}

impl<C: BlockCipherEncrypt + KeyInit> Model for CtrDrbg<C> {
    ghost use Rattle.std.specs.Prelude.{◌≡◌, [], slice_index_or};
    ghost use Rattle.ctr_drbg.specs.CtrDrbg.{State};

    ghost Value = { State };

    ghost view = { λ drbg. record {
      key = C.own_key drbg.cipher;
      v = slice_index_or drbg.v 0 [];
      reseed_counter = drbg.reseed_counter;
    } };

    ghost invariant = { λ drbg. C.KEY_SIZE ≡ 32 };
}

impl<C: BlockCipherEncrypt + KeyInit> NotClone for CtrDrbg<C> {}

impl<C: BlockCipherEncrypt + KeyInit + ZeroizeOnDrop> ZeroizeOnDrop for CtrDrbg<C> {}

impl<C: BlockCipherEncrypt + KeyInit + Drop> CtrDrbg<C> {
    /// Makes a generator from 48 bytes of entropy input and a personalization string, which may be
    /// empty (10.2.1.3.1). The entropy input has to be full entropy that nobody knows; 48 bytes of
    /// the system's generator are. The personalization string needn't be secret.
    ///
    /// # Errors
    ///
    /// `EntropyLength` exactly if the entropy input doesn't have 48 bytes. Else `TooLong` exactly
    /// if the personalization string has more than 48 bytes.
    pub fn instantiate(
        entropy_input: &[u8],
        personalization_string: &[u8],
    ) -> Result<Self, InvalidSeed>
        requires { C.KEY_SIZE ≡ 32 }
        ensures entropy { IsErrOf result InvalidSeed.EntropyLength ↔
            (length entropy_input.now ≢ 48) }
        ensures refusal { IsErr result ↔ ((length entropy_input.now ≢ 48)
            ⊎ (48 < length personalization_string.now)) }
        ensures made { IfOk result (λ made. made
            ≡ nist.instantiate entropy_input.now personalization_string.now) }
    {
        let mut generator = CtrDrbg {
            cipher: cipher_of_key(&[0; KEY_LENGTH]),
            v: Wiped::zeroed(),
            reseed_counter: 1,
        };
        generator.reseed(entropy_input, personalization_string)?;
        Ok(generator)
    }

    /// Reseeds with 48 bytes of fresh entropy input, and an additional input, which may be empty
    /// (10.2.1.4.1).
    ///
    /// # Errors
    ///
    /// `EntropyLength` exactly if the entropy input doesn't have 48 bytes. Else `TooLong` exactly
    /// if the additional input has more than 48 bytes. The generator is then unchanged.
    pub fn reseed(
        &mut self,
        entropy_input: &[u8],
        additional_input: &[u8],
    ) -> Result<(), InvalidSeed>
        ensures entropy { IsErrOf result InvalidSeed.EntropyLength ↔
            (length entropy_input.now ≢ 48) }
        ensures refusal { IsErr result ↔ ((length entropy_input.now ≢ 48)
            ⊎ (48 < length additional_input.now)) }
        ensures reseeded { OnOk result (self.new
            ≡ nist.reseed entropy_input.now additional_input.now self.old) }
        ensures unchanged { OnErr result (self.new ≡ self.old) }
    {
        check_lengths(entropy_input, additional_input)?;
        self.take_seed(entropy_input, additional_input);
        wipe_stack::<CALL_STACK>();
        Ok(())
    }

    /// Fills the output with pseudorandom bytes, and moves on to a working state from which they
    /// can't be found again (10.2.1.5.1). The additional input may be empty, which is Null.
    ///
    /// # Errors
    ///
    /// `TooManyBytes` exactly if the output has more than 2^16 bytes. Else `TooLong` exactly if the
    /// additional input has more than 48 bytes. Else `ReseedRequired` exactly if there were 2^48
    /// requests since the seed. The generator and the output are then unchanged.
    pub fn generate(
        &mut self,
        additional_input: &[u8],
        output: &mut [u8],
    ) -> Result<(), NotGenerated>
        ensures many { IsErrOf result NotGenerated.TooManyBytes ↔ (2 ^ 16 < length output.old) }
        ensures long { IsErrOf result NotGenerated.TooLong
            ↔ ((length output.old ≤ 2 ^ 16) × (48 < length additional_input.now)) }
        ensures refusal { IsErr result ↔ ((2 ^ 16 < length output.old)
            ⊎ ((48 < length additional_input.now)
            ⊎ (2 ^ 48 < self.old.reseed_counter))) }
        ensures output { OnOk result (output.new
            ≡ nist.returned_bits (length output.old) additional_input.now self.old) }
        ensures state { OnOk result
            (self.new ≡ nist.generate (length output.old) additional_input.now self.old) }
        ensures unchanged { OnErr result (self.new ≡ self.old) }
        ensures untouched { OnErr result (output.new ≡ output.old) }
    {
        if output.len() > LONGEST_REQUEST {
            return Err(NotGenerated::TooManyBytes);
        }
        if additional_input.len() > SEED_LENGTH {
            return Err(NotGenerated::TooLong);
        }
        if self.reseed_counter > RESEED_INTERVAL {
            return Err(NotGenerated::ReseedRequired);
        }
        self.answer(additional_input, output);
        wipe_stack::<CALL_STACK>();
        Ok(())
    }

    /// Returns how many more requests `generate` answers before it asks for a reseed: 2^48 after a
    /// seed, and one less after each request. At 0 it refuses the next one.
    pub fn requests_left(&self) -> u64
        ensures { result ≡ (2 ^ 48 + 1) - self.now.reseed_counter }
    {
        (RESEED_INTERVAL + 1).saturating_sub(self.reseed_counter)
    }

    /// Forgets the seed (Uninstantiate, 9.4). Key and V are then zeros. Every request is refused
    /// with `ReseedRequired`, until `reseed` brings in a new seed.
    pub fn uninstantiate(&mut self)
        ensures key { self.new.key ≡ replicate 32 0 }
        ensures v { self.new.v ≡ replicate 16 0 }
        ensures counter { self.new.reseed_counter ≡ 2 ^ 48 + 1 }
    {
        self.v.wipe();
        self.cipher = cipher_of_key(&[0; KEY_LENGTH]);
        self.set_counter(RESEED_INTERVAL + 1);
    }

    // Reseeds, where the strings are allowed. This is a call of its own, so that its stack can be
    // wiped.
    #[inline(never)]
    fn take_seed(&mut self, entropy_input: &[u8], additional_input: &[u8])
        requires entropy { length entropy_input.now ≡ 48 }
        requires fits { length additional_input.now ≤ 48 }
        ensures { self.new ≡ nist.reseed entropy_input.now additional_input.now self.old }
    {
        let mut seed = MustWipe::<SeedRoom>::zeroed();
        put_seed_material(
            entropy_input,
            additional_input,
            &mut seed.value_mut()[0].bytes,
        );
        self.set_counter(1);
        self.update(&seed.value()[0].bytes);
        seed.wipe();
    }

    // Answers a request, where it is allowed. This is a call of its own, so that its stack can be
    // wiped.
    #[inline(never)]
    #[tactic(auto, unfolding(crate::specs::CtrDrbg::returned_bits))]
    fn answer(&mut self, additional_input: &[u8], output: &mut [u8])
        requires allowed { length output.old ≤ 2 ^ 16 }
        requires fits { length additional_input.now ≤ 48 }
        requires counted { self.old.reseed_counter ≤ 2 ^ 48 }
        ensures output { output.new ≡ nist.returned_bits
            (length output.old) additional_input.now self.old }
        ensures state { self.new ≡ nist.generate (length output.old) additional_input.now self.old }
    {
        let requests = self.reseed_counter;
        let mut provided = MustWipe::<SeedRoom>::zeroed();
        put_padded(additional_input, &mut provided.value_mut()[0].bytes);
        let provided_data = &provided.value()[0].bytes;
        self.prepare(additional_input, provided_data);
        self.put_output(output);
        self.set_counter(requests + 1);
        self.update(provided_data);
        provided.wipe();
    }

    // CTR_DRBG_Update (10.2.1.2).
    #[tactic(auto, unfolding(crate::specs::CtrDrbg::update))]
    fn update(&mut self, provided_data: &[u8; SEED_LENGTH])
        ensures { self.new ≡ nist.update provided_data.now self.old }
    {
        let mut room = MustWipe::<SeedRoom>::zeroed();
        let temp = &mut room.value_mut()[0].bytes;
        *temp = *provided_data;
        self.add_output(temp);
        self.take_state(temp);
        room.wipe();
    }

    // Adds to a seed as many bytes of output (10.2.1.2, steps 1 to 4).
    fn add_output(&self, seed: &mut [u8; SEED_LENGTH])
        ensures { seed.new ≡ nist.exclusive_or (nist.output self.now.key self.now.v 48) seed.old }
    {
        add_output(&self.cipher, &self.v.value()[0], seed);
    }

    // Takes Key and V from temp (10.2.1.2, steps 5 to 7).
    fn take_state(&mut self, temp: &[u8; SEED_LENGTH])
        ensures key { self.new.key ≡ take 32 temp.now }
        ensures v { self.new.v ≡ drop 32 temp.now }
        ensures counter { self.new.reseed_counter ≡ self.old.reseed_counter }
    {
        let (key, v) = temp.split_at(KEY_LENGTH);
        self.v.value_mut()[0].copy_from_slice(v);
        self.cipher = cipher_of_key(key);
    }

    // The update before the output, if there is an additional input (10.2.1.5.1, step 2).
    #[tactic(auto, unfolding(crate::specs::CtrDrbg::prepared))]
    fn prepare(&mut self, additional_input: &[u8], provided_data: &[u8; SEED_LENGTH])
        requires { provided_data.now ≡ nist.seed_padded additional_input.now }
        ensures { self.new ≡ nist.prepared additional_input.now self.old }
    {
        if additional_input.len() != 0 {
            self.update(provided_data);
        }
    }

    // Writes output blocks and moves V on (10.2.1.5.1, steps 3 to 5).
    fn put_output(&mut self, output: &mut [u8])
        requires { length output.old ≤ 2 ^ 16 }
        ensures output { output.new ≡ nist.output self.old.key self.old.v (length output.old) }
        ensures key { self.new.key ≡ self.old.key }
        ensures v { self.new.v ≡ nist.v_after self.old.v (nist.blocks_for (length output.old)) }
    {
        put_output(&self.cipher, &self.v.value()[0], output);
        let v = moved_on(&self.v.value()[0], output.len());
        self.put_v(&v);
    }

    fn put_v(&mut self, v: &Block)
        ensures key { self.new.key ≡ self.old.key }
        ensures v { self.new.v ≡ v.now }
    {
        self.v.value_mut()[0].copy_from_slice(v);
    }

    fn set_counter(&mut self, reseed_counter: u64)
        ensures key { self.new.key ≡ self.old.key }
        ensures v { self.new.v ≡ self.old.v }
        ensures counter { self.new.reseed_counter ≡ reseed_counter }
    {
        self.reseed_counter = reseed_counter;
    }
}
