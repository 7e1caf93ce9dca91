//! Stored blocks that are wiped, and their copy.

use aes_cipher::zeroize::Wiped;

#[test]
fn wipes_blocks_and_leaves_their_copy(rt: HostRuntime) {
    let blocks = [[7; 16], [8; 16]];
    let mut stored = Wiped::new(blocks);
    let copy = stored.copy();
    stored.wipe();
    assert!(rt; *stored.value() == [[0; 16]; 2]);
    assert!(rt; *copy.value() == blocks);
}
