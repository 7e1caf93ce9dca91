//! Calls the functions whose contracts are laws or examples.

use aes_ctr::examples as ctr_examples;
use aes_planes::soft::planes::{held_holds, same_blocks_same_planes};
use aes_planes::{examples, laws};
use aes_soft::examples as soft_examples;

#[test]
fn laws_and_examples_can_be_called() {
    laws::field_inverse();
    laws::sbox_inverse();
    laws::mix_inverse();
    laws::shift_four();
    laws::inverse_ciphers();
    laws::equivalent_inverse();
    laws::inverse_ciphers_with();
    laws::inverse_ciphers_on_blocks();
    laws::expanded_keys();
    laws::sums_of_blocks();
    laws::block_has_16_bytes([0; 16]);
    laws::blocks_have_16_bytes(&[[0; 16]; 3]);
    laws::each_in_its_place();
    held_holds();
    same_blocks_same_planes();
    examples::field_examples();
    examples::sbox_examples();
    examples::step_examples();
    examples::inverse_step_examples();
    examples::shift_examples();
    examples::word_examples();
    examples::key_expansion_128();
    examples::key_expansion_192();
    examples::key_expansion_256();
    examples::cipher_example();
    examples::cipher_128();
    examples::cipher_192();
    examples::cipher_256();
    examples::equivalent_inverse_128();
    examples::column_examples();
    examples::deferred_shifts();
    soft_examples::zero_key_expansion();
    soft_examples::compact_words();
    soft_examples::full_words();
    soft_examples::key_example();
    soft_examples::layer_examples();
    ctr_examples::counter_examples();
    ctr_examples::keystream_128_example();
    ctr_examples::ctr_128_example();
    ctr_examples::pieces_example();
}
