//! Backends on batches of different blocks, through their bounds.

ghost use Rattle.std.specs.Prelude.{◌≡◌};

use aes_cipher::cipher::{BlockCipherDecBackend, BlockCipherEncBackend, ParBlocksSizeUser};
use aes_planes::soft::sbox::Layers;
use aes_planes::soft::word::Block;
use aes_soft::soft::{Aes128Backend, Aes192Backend, Aes256Backend, full};
use standards::blocks::different_blocks;
use standards::keys::{BY_128, BY_192, BY_256, KEY_128, KEY_192, KEY_256, PLAIN};

// Eight different blocks, in slot 5 that of FIPS 197, appendix C.
fn batch() -> [Block; 8] {
    let different = different_blocks();
    let mut blocks = [PLAIN.to_be_bytes(); 8];
    for i in 0..8usize {
        if i != 5 {
            blocks[i] = different[i + 1];
        }
    }
    blocks
}

// The batch encrypted, and the same block by block.
fn encrypted<B: BlockCipherEncBackend>(backend: &B) -> ([Block; 8], [Block; 8])
    requires { B.PAR_BLOCKS ≡ 8 }
{
    let mut whole = batch();
    backend.encrypt_par_blocks(&mut whole);
    let mut single = batch();
    for block in single.iter_mut() {
        backend.encrypt_block(block);
    }
    (whole, single)
}

// Blocks decrypted as a batch, and block by block.
fn decrypted<B: BlockCipherDecBackend>(backend: &B, blocks: [Block; 8]) -> ([Block; 8], [Block; 8])
    requires { B.PAR_BLOCKS ≡ 8 }
{
    let mut whole = blocks;
    backend.decrypt_par_blocks(&mut whole);
    let mut single = blocks;
    for block in single.iter_mut() {
        backend.decrypt_block(block);
    }
    (whole, single)
}

// Whether a backend processes batches as it processes blocks, each way, and encrypts the block in
// slot 5 as it is given.
fn processes_batches<B>(backend: &B, slot5: u128) -> bool
where
    B: BlockCipherEncBackend + BlockCipherDecBackend,
    requires { B.PAR_BLOCKS ≡ 8 }
{
    let (whole, single) = encrypted(backend);
    let (decrypted_batch, single_back) = decrypted(backend, whole);
    let is_encrypted = whole == single && whole[5] == slot5.to_be_bytes();
    is_encrypted && [decrypted_batch, single_back] == [batch(), batch()]
}

// FIPS 197, appendices C.1 to C.3.
#[test]
fn processes_batches_of_eight(rt: HostRuntime) {
    let mut layers = Layers::new();
    let short = full::aes128::key_schedule(&KEY_128, &mut layers);
    let middle = full::aes192::key_schedule(&KEY_192, &mut layers);
    let long = full::aes256::key_schedule(&KEY_256, &mut layers);
    assert!(rt; processes_batches(&Aes128Backend::new(&short), BY_128));
    assert!(rt; processes_batches(&Aes192Backend::new(&middle), BY_192));
    assert!(rt; processes_batches(&Aes256Backend::new(&long), BY_256));
}
