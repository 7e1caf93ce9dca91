//! Counter mode: the standard's examples and blocks by OpenSSL, however the bytes are cut.

use aes::FixslicedAes;
use aes_cipher::aes::{AesCipher, Bits128, Bits192, Bits256, BothWays, KeySize};
use aes_cipher::cipher::{BlockCipherEncrypt, Encrypt, KeyInit};
use aes_ctr::{Ctr128BE, stream_cut, stream_twice};
use aes_hybrid::widths::Width128;
use aes_hybrid::{Aes128Enc, EncryptionKeys};
use standards::counter::{ENCRYPTED, IV, PLAIN};
use standards::keys::{KEY_A1, ZEROS_BY_128, ZEROS_BY_192, ZEROS_BY_256};
use std::test::Fail;

// Block `j` of bytes, if they have it.
fn block_at(bytes: &[u8], j: usize) -> Option<u128> {
    if bytes.len() / 16 <= j {
        return None;
    }
    let block = <[u8; 16]>::try_from(&bytes[16 * j..16 * j + 16]).ok()?;
    Some(u128::from_be_bytes(block))
}

// What is tried with counter mode over any cipher.
trait CounterTrial {
    // Whether the cipher passes.
    fn passes<C: BlockCipherEncrypt>(&self, cipher: &C) -> bool;
}

// Whether the type of `aes_hybrid` that encrypts passes under the key of the standard's example.
fn passes<T: CounterTrial>(trial: &T) -> bool {
    trial.passes(&AesCipher::<EncryptionKeys<Bits128, Width128>, Encrypt>::new(&KEY_A1))
}

// Counter mode over a borrowed cipher.
fn mode_from<C: BlockCipherEncrypt>(cipher: &C, iv: u128) -> Ctr128BE<&C> {
    Ctr128BE::new(cipher, iv.to_be_bytes())
}

// Adds the keystream to bytes by calls on pieces of these lengths, and tells whether each call
// answered and no byte is left.
fn apply_in_pieces<C: BlockCipherEncrypt>(
    mode: &mut Ctr128BE<C>,
    bytes: &mut [u8],
    pieces: &[usize],
) -> bool {
    let mut from = 0;
    for piece in pieces {
        if bytes.len() - from < *piece {
            return false;
        }
        let end = from + *piece;
        if mode.try_apply(&mut bytes[from..end]).is_err() {
            return false;
        }
        from = end;
    }
    from == bytes.len()
}

// The standard's example, cut in four ways, and back.
struct Example;

impl CounterTrial for Example {
    fn passes<C: BlockCipherEncrypt>(&self, cipher: &C) -> bool {
        let cuts: [&[usize]; 4] = [&[32], &[5, 27], &[0, 1, 15, 0, 16], &[1; 32]];
        let mut right = true;
        for pieces in cuts {
            let mut mode = mode_from(cipher, IV);
            let mut bytes = PLAIN;
            right &= apply_in_pieces(&mut mode, &mut bytes, pieces);
            right &= bytes == ENCRYPTED && mode.position() == 32;
        }
        let mut bytes = ENCRYPTED;
        right &= mode_from(cipher, IV).try_apply(&mut bytes).is_ok();
        right && bytes == PLAIN
    }
}

#[test]
fn answers_the_example_of_the_standard_however_it_is_cut(rt: HostRuntime) {
    assert!(rt; passes(&Example), "aes_hybrid");
    let cipher = FixslicedAes::<Bits128, Encrypt>::new(&KEY_A1);
    assert!(rt; Example.passes(&cipher), "aes");
}

// The first two blocks of the keystream of a cipher.
fn keystream_of<C: BlockCipherEncrypt + Drop>(cipher: C, iv: u128) -> Option<[u128; 2]> {
    let mut bytes = [0; 32];
    let mut mode = Ctr128BE::new(cipher, iv.to_be_bytes());
    mode.try_apply(&mut bytes).ok()?;
    Some([block_at(&bytes, 0)?, block_at(&bytes, 1)?])
}

// The first two blocks of the keystream under a key, by the type of `aes` that encrypts and by the
// one for both directions.
fn keystreams_of_aes<K: KeySize>(key: &K::Key, iv: u128) -> [Option<[u128; 2]>; 2] {
    [
        keystream_of(FixslicedAes::<K, Encrypt>::new(key), iv),
        keystream_of(FixslicedAes::<K, BothWays>::new(key), iv),
    ]
}

#[test]
fn counts_from_zero_and_past_the_last_number(rt: HostRuntime) -> Result<(), Fail> {
    for keystream in keystreams_of_aes::<Bits128>(&[0; 16], u128::MAX) {
        let [_, second] = keystream.ok_or("end")?;
        assert!(rt; second == ZEROS_BY_128);
    }
    for keystream in keystreams_of_aes::<Bits192>(&[0; 24], 0) {
        let [first, _] = keystream.ok_or("end")?;
        assert!(rt; first == ZEROS_BY_192);
    }
    for keystream in keystreams_of_aes::<Bits256>(&[0; 32], 0) {
        let [first, _] = keystream.ok_or("end")?;
        assert!(rt; first == ZEROS_BY_256);
    }
    Ok(())
}

// The keystream from a counter block, whole and cut, by some of its blocks.
#[derive(Drop)]
struct Carries {
    iv: u128,
    blocks: [(usize, u128); 8],
}

impl CounterTrial for Carries {
    fn passes<C: BlockCipherEncrypt>(&self, cipher: &C) -> bool {
        let mut whole = [0; 9600];
        let mut right = mode_from(cipher, self.iv).try_apply(&mut whole).is_ok();
        for (j, block) in self.blocks {
            right &= block_at(&whole, j) == Some(block);
        }
        let mut pieces = [0; 9600];
        right &= apply_in_pieces(
            &mut mode_from(cipher, self.iv),
            &mut pieces,
            &[1025, 0, 7, 1024, 300, 7244],
        );
        right && pieces == whole
    }
}

// Blocks of the keystream by OpenSSL, where the counter carries into its upper half after block 31,
// and where it starts anew from zero there. They stand about the ends of batches.
#[test]
fn carries_through_the_counter(rt: HostRuntime) {
    let rows: [(u128, [(usize, u128); 8]); 2] = [
        (
            0x0123456789abcdefffffffffffffffe0,
            [
                (0, 0x1bbb9e0b98f4a17b94f20920695231bf),
                (31, 0x140cc58c481a343c004a1dc8ec313ca1),
                (32, 0x40324c8b9cde30f781f03f71d12d1a8b),
                (63, 0x97964fd26cf1eb49788f59a71ec08c72),
                (64, 0xd5295b625bc578363cb4a14e294e56d4),
                (511, 0x1563e19a7723d1a14575d29f017bf4ab),
                (512, 0x56357183989d262727a84ee01d3762da),
                (599, 0xd28f4f6f445a4aec1296d0f381abc366),
            ],
        ),
        (
            0xffffffffffffffffffffffffffffffe0,
            [
                (0, 0x00b8dd2ef2fd203b170faba18a9239a1),
                (31, 0x8af2860142f786f409307c1a3f7eaaac),
                (32, 0x7df76b0c1ab899b33e42f047b91b546f),
                (63, 0x6713c45185cdbd3be7a22b3b0a59b071),
                (64, 0xcb739dd41e040ac96b849e1c5beddd35),
                (511, 0x57812e27cc0c4c57bce3583ad12f8c4d),
                (512, 0xd98cec67877b17e224ebc4ccc5f172c7),
                (599, 0xbd7fdaac65120e5130d58f97bd1c6480),
            ],
        ),
    ];
    for (iv, blocks) in rows {
        assert!(rt; passes(&Carries { iv, blocks }));
    }
}

#[test]
fn starts_and_goes_on_at_any_position(rt: HostRuntime) {
    let cipher = <Aes128Enc>::new(&KEY_A1);
    for at in [0, 1, 15, 16, 17, 31, 32] {
        let mut bytes = PLAIN;
        let mut mode = Ctr128BE::new_at(&cipher, IV.to_be_bytes(), at as u64);
        assert!(rt; mode.try_apply(&mut bytes[at..]).is_ok());
        let mut mode = Ctr128BE::new(&cipher, IV.to_be_bytes());
        assert!(rt; mode.try_apply(&mut bytes[..at]).is_ok());
        assert!(rt; bytes == ENCRYPTED);
        mode.seek(at as u64);
        assert!(rt; mode.position() == at as u64);
        assert!(rt; mode.try_apply(&mut bytes[at..]).is_ok());
        mode.seek(0);
        assert!(rt; mode.try_apply(&mut bytes[..at]).is_ok());
        assert!(rt; bytes == PLAIN);
    }
    let mut end = [0; 2];
    let mut mode = Ctr128BE::new_at(&cipher, [0; 16], u64::MAX - 1);
    assert!(rt; mode.try_apply(&mut end).is_err());
    assert!(rt; mode.try_apply(&mut end[..1]).is_ok());
}

#[test]
fn laws_can_be_called() {
    stream_cut();
    stream_twice();
}
