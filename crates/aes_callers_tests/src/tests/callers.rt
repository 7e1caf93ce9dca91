//! The proved callers, on the blocks of FIPS 197, appendix C.

use aes::{Aes128, Aes192, Aes192Dec, Aes256, Aes256Enc, Block, FixslicedAes};
use aes_callers::callers::{
    encrypt_and_pass_on, encrypt_by_rounds, there_and_back, there_and_back_by,
};
use aes_callers::generic;
use aes_callers::layers::{count_layers, count_schedule_layers};
use aes_cipher::aes::{Bits128, Bits192, Bits256, BothWays, KeySize};
use aes_cipher::cipher::{BlockCipherDecrypt, BlockCipherEncrypt, KeyInit, KeySizeUser};
use aes_planes::soft::sbox::Layers;
use standards::blocks::different_blocks;
use standards::keys::{BY_128, BY_192, BY_256, KEY_128, KEY_192, KEY_256, PLAIN};

#[test]
fn callers_have_the_blocks_of_the_standard(rt: HostRuntime) {
    let plain = PLAIN.to_be_bytes();
    let (there, back) = there_and_back(&KEY_128, &plain);
    assert!(rt; there == BY_128.to_be_bytes());
    assert!(rt; back == plain);

    let mut block = plain;
    let there = there_and_back_by(&Aes192::new(&KEY_192), &mut block);
    assert!(rt; there == BY_192.to_be_bytes());
    assert!(rt; block == plain);

    let mut blocks = [plain; 9];
    let passed_on = encrypt_and_pass_on(&KEY_256, &mut blocks);
    assert!(rt; blocks == [BY_256.to_be_bytes(); 9]);
    assert!(rt;
        passed_on.is_ok_and(|cipher| {
            let mut block = BY_256.to_be_bytes();
            cipher.decrypt_block(&mut block);
            block == plain
        })
    );

    let mut blocks = [plain; 9];
    encrypt_by_rounds(&KEY_128, &mut blocks);
    assert!(rt; blocks == [BY_128.to_be_bytes(); 9]);
}

// Whether the callers over any cipher encrypt the block as wanted, under a key as an array and as a
// slice.
fn goes_there_and_back<C>(key: &C::Key, bytes: &[u8], wanted: u128) -> bool
where
    C: KeyInit + BlockCipherEncrypt + BlockCipherDecrypt + Drop,
{
    let mut block = PLAIN.to_be_bytes();
    let by_key = generic::there_and_back::<C>(key, &mut block);
    let by_slice = generic::there_and_back_from_slice::<C>(bytes, &mut block);
    by_key == wanted.to_be_bytes() && by_slice == Ok(by_key) && block == PLAIN.to_be_bytes()
}

// Whether they do so for the type of `aes` for a size. With the size as a parameter, it is proved
// once for all sizes.
fn type_goes_there_and_back<K: KeySize>(key: &K::Key, bytes: &[u8], wanted: u128) -> bool {
    goes_there_and_back::<FixslicedAes<K, BothWays>>(key, bytes, wanted)
}

#[test]
fn any_cipher_has_the_blocks_of_the_standard(rt: HostRuntime) {
    assert!(rt; type_goes_there_and_back::<Bits128>(&KEY_128, &KEY_128, BY_128));
    assert!(rt; type_goes_there_and_back::<Bits192>(&KEY_192, &KEY_192, BY_192));
    assert!(rt; type_goes_there_and_back::<Bits256>(&KEY_256, &KEY_256, BY_256));
}

// A slice of blocks that goes there and back by the type of `aes` for a size.
fn slice_there_and_back<K: KeySize>(key: &K::Key) -> [Block; 24] {
    let cipher = FixslicedAes::<K, BothWays>::new(key);
    generic::has_sized_key(&cipher);
    let mut blocks = different_blocks();
    generic::blocks_there_and_back(&cipher, &mut blocks);
    blocks
}

#[test]
fn slices_go_there_and_back(rt: HostRuntime) {
    assert!(rt; slice_there_and_back::<Bits256>(&KEY_256) == different_blocks());
}

// Only contracts see the counters. The test shows that the calls return.
#[test]
fn counted_calls_answer(rt: HostRuntime) {
    let mut blocks = [PLAIN.to_be_bytes(); 9];
    count_layers(
        &mut blocks,
        &Aes128::new(&KEY_128),
        &mut Layers::new(),
        &Aes192Dec::new(&KEY_192),
        &mut Layers::new(),
        &Aes256Enc::new(&KEY_256),
        &mut Layers::new(),
    );
    count_schedule_layers(
        &KEY_128,
        &mut Layers::new(),
        &KEY_192,
        &mut Layers::new(),
        &KEY_256,
        &mut Layers::new(),
    );
    let mut wanted = BY_128.to_be_bytes();
    Aes192::new(&KEY_192).decrypt_block(&mut wanted);
    Aes256::new(&KEY_256).encrypt_block(&mut wanted);
    assert!(rt; blocks == [wanted; 9]);
}
