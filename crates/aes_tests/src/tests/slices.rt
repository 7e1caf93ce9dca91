//! Slices of blocks, short and long, those of the counted calls, and the batches of a backend.

ghost use Rattle.std.specs.Prelude.{⊤};

mod as_single_blocks;

use super::forms::{CipherTrial, Forms, Known, Trial, pass_under, try_all};
use aes::FixslicedAes;
use aes_cipher::aes::{
    AesCipher, Allows, Bits128, Bits192, Bits256, BothWays, CountsLayers, Decrypts, Encrypts,
    KeySize,
};
use aes_cipher::cipher::{
    Block, BlockCipherDecrypt, BlockCipherEncBackend, BlockCipherEncClosure, BlockCipherEncrypt,
    Decrypt, Encrypt, KeyInit,
};
use aes_hybrid::Aes128Enc;
use aes_planes::soft::sbox::Layers;
use standards::blocks::different_blocks;
use standards::keys::{KEY_128, KEY_192, KEY_256, PLAIN};
use std::test::Fail;

// Whether slices of 0 to 17 blocks become the same by the counted call and by the other call, and
// come back by the counted call.
fn counts_slices<S, E, D>(encrypts: &AesCipher<S, E>, decrypts: &AesCipher<S, D>) -> bool
where
    S: CountsLayers + Encrypts + Decrypts,
    E: Allows<Encrypt>,
    D: Allows<Decrypt>,
{
    let blocks = different_blocks();
    let mut layers = Layers::new();
    let mut right = true;
    for count in 0..=17 {
        let mut wanted = blocks;
        encrypts.encrypt_blocks(&mut wanted[..count]);
        let mut counted = blocks;
        encrypts.encrypt_blocks_counted(&mut counted[..count], &mut layers);
        right &= counted == wanted;
        decrypts.decrypt_blocks_counted(&mut counted[..count], &mut layers);
        right &= counted == blocks;
    }
    right
}

// The three types of `aes` for a key. With the size as a parameter, they are proved once for all
// sizes.
fn planes_count_slices<K: KeySize>(key: &K::Key) -> bool {
    let both = FixslicedAes::<K, BothWays>::new(key);
    counts_slices(&both, &both)
        && counts_slices(
            &FixslicedAes::<K, Encrypt>::new(key),
            &FixslicedAes::<K, Decrypt>::new(key),
        )
}

#[test]
fn counted_calls_process_the_same(rt: HostRuntime) {
    assert!(rt; planes_count_slices::<Bits128>(&KEY_128));
    assert!(rt; planes_count_slices::<Bits192>(&KEY_192));
    assert!(rt; planes_count_slices::<Bits256>(&KEY_256));
}

// Whether a hundred blocks change by the call on slices that encrypts, and each comes back by the
// call on blocks that decrypts. Then the directions are exchanged.
fn brings_back_a_hundred<C: BlockCipherEncrypt + BlockCipherDecrypt>(cipher: &C) -> bool {
    let mut there = [[0x2a; 16]; 100];
    let mut back = there;
    cipher.encrypt_blocks(&mut there);
    cipher.decrypt_blocks(&mut back);
    let mut right = there.iter().all(|block| *block != [0x2a; 16]);
    right &= back.iter().all(|block| *block != [0x2a; 16]);
    for block in there.iter_mut() {
        cipher.decrypt_block(block);
    }
    for block in back.iter_mut() {
        cipher.encrypt_block(block);
    }
    right && there == [[0x2a; 16]; 100] && back == there
}

// Whether seven blocks and nineteen come out as the standard says, and come back.
fn there_and_back<E: BlockCipherEncrypt, D: BlockCipherDecrypt>(
    encrypts: &E,
    decrypts: &D,
    wanted: u128,
) -> bool {
    let mut few: [Block; 7] = [PLAIN.to_be_bytes(); 7];
    let mut many: [Block; 19] = [PLAIN.to_be_bytes(); 19];
    encrypts.encrypt_blocks(&mut few);
    encrypts.encrypt_blocks(&mut many);
    let there = few == [wanted.to_be_bytes(); 7] && many == [wanted.to_be_bytes(); 19];
    decrypts.decrypt_blocks(&mut few);
    decrypts.decrypt_blocks(&mut many);
    there && few == [PLAIN.to_be_bytes(); 7] && many == [PLAIN.to_be_bytes(); 19]
}

// The encryption of a block. Slices of that block have to become this.
#[derive(Drop)]
struct Repeated {
    encrypted: u128,
}

impl CipherTrial for Repeated {
    fn passes<B, E, D>(&self, both: &B, encrypts: &E, decrypts: &D) -> bool
    where
        B: BlockCipherEncrypt + BlockCipherDecrypt,
        E: BlockCipherEncrypt,
        D: BlockCipherDecrypt,
    {
        there_and_back(both, both, self.encrypted)
            && there_and_back(encrypts, decrypts, self.encrypted)
    }
}

// What 23 different blocks become, after the first of `different_blocks`, each way. Block 15 there
// is in a batch, and block 23 is in no batch of planes.
#[derive(Drop)]
struct Different {
    encrypted: [u128; 2],
    decrypted: [u128; 2],
}

// Blocks 15 and 23.
fn two_of(blocks: &[Block; 24]) -> [u128; 2] {
    [
        u128::from_be_bytes(blocks[15]),
        u128::from_be_bytes(blocks[23]),
    ]
}

impl CipherTrial for Different {
    fn passes<B, E, D>(&self, both: &B, encrypts: &E, decrypts: &D) -> bool
    where
        B: BlockCipherEncrypt + BlockCipherDecrypt,
        E: BlockCipherEncrypt,
        D: BlockCipherDecrypt,
    {
        let mut there = [different_blocks(), different_blocks()];
        both.encrypt_blocks(&mut there[0][1..]);
        encrypts.encrypt_blocks(&mut there[1][1..]);
        let mut back = [different_blocks(), different_blocks()];
        both.decrypt_blocks(&mut back[0][1..]);
        decrypts.decrypt_blocks(&mut back[1][1..]);
        there[0] == there[1]
            && two_of(&there[0]) == self.encrypted
            && back[0] == back[1]
            && two_of(&back[0]) == self.decrypted
    }
}

// What `Different` expects for a key, by OpenSSL.
fn different_by_key(key: &[u8]) -> Different {
    match key.len() {
        16 => Different {
            encrypted: [
                0x1c41afa46659615b866573ff8ac2b748,
                0xf4f49f6f6985d47453ee6a81be976126,
            ],
            decrypted: [
                0xe611b913be20fa13a802f053bc8365b7,
                0x1620dab423d2dc24a711597366d7d3c5,
            ],
        },
        24 => Different {
            encrypted: [
                0xf260a0db5d4d789c33004652d8db2999,
                0xc21075c999667d7fa583a52bb934d1e4,
            ],
            decrypted: [
                0x9e57b1183f41fc51a9e9fe9277666d85,
                0xbd4eceea4a35507dd79f4819c6866e9f,
            ],
        },
        _ => Different {
            encrypted: [
                0xe70c8fee4a1999bc5da7cd016c053d33,
                0x1bdaa434cac5497117f76ff76cfe39db,
            ],
            decrypted: [
                0xd973bcf180103967b6c582bde6c66d9f,
                0xcfd0776573d1b453be187885c9af06ba,
            ],
        },
    }
}

// A hundred blocks, there and back.
#[derive(Drop)]
struct Hundred;

impl CipherTrial for Hundred {
    fn passes<B, E, D>(&self, both: &B, _encrypts: &E, _decrypts: &D) -> bool
    where
        B: BlockCipherEncrypt + BlockCipherDecrypt,
        E: BlockCipherEncrypt,
        D: BlockCipherDecrypt,
    {
        brings_back_a_hundred(both)
    }
}

struct Slices;

impl Trial for Slices {
    fn passes<F: Forms>(&self, known: &Known) -> Result<bool, Fail> {
        let repeated = Repeated {
            encrypted: known.encrypted,
        };
        let different = different_by_key(known.key);
        Ok(
            pass_under::<F, Repeated>(known.key, &repeated)
                && pass_under::<F, Different>(known.key, &different)
                && pass_under::<F, Hundred>(known.key, &Hundred)
                && (known.key.len() != 16 || pass_under::<F, Hundred>(&[0; 16], &Hundred)),
        )
    }
}

#[test]
fn slices_go_there_and_back(rt: HostRuntime) -> Result<(), Fail> {
    try_all(&rt, &Slices)
}

// How many blocks the backend takes at once.
#[derive(Drop)]
struct BatchTaken {
    blocks: usize,
}

impl BlockCipherEncClosure for BatchTaken {
    ghost did = { λ before w after. ⊤ };

    fn call<B: BlockCipherEncBackend>(&mut self, _backend: &B) {
        self.blocks = B::PAR_BLOCKS;
    }
}

#[test]
fn few_blocks_are_taken_by_fours_and_many_by_eights(rt: HostRuntime) {
    let cipher = Aes128Enc::new(&KEY_128);
    let mut taken = BatchTaken { blocks: 0 };
    cipher.encrypt_with_backend_for(1, &mut taken);
    assert!(rt; taken.blocks == 4);
    cipher.encrypt_with_backend_for(100, &mut taken);
    assert!(rt; taken.blocks == 8);
}
