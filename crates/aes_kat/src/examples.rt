//! Replies to whole lines, as contracts, for each command and each fault. With them the prover
//! refuses a mistake in a definition.
//!
//! The answers are those that FIPS 197 prints.

ghost use Rattle.std.specs.Prelude.{◌≡◌, ◌∷◌, [], ◌++◌, codes, true, false, map, Ok, Err};
ghost use Rattle.aes_kat.specs.Answers.{answers_to, has_fault};
ghost use Rattle.aes_kat.specs.declared.runs.Failed.{Failed};
ghost use Rattle.aes_kat.specs.Reply.{reply_to, is_fault, is_key_size, is_size_of_blocks};
ghost use Rattle.aes_kat.specs.Status.{status_of};

use aes_planes::examples;

/// Replies to `enc` and `dec`, by appendix C.1: its block encrypted, and decrypted again.
#[tactic(auto, unfolding(crate::proofs::OnLiterals::replies_on_literals))]
pub fn cipher_replies()
    ensures enc { reply_to (codes "enc 000102030405060708090a0b0c0d0e0f 00112233445566778899aabbccddeeff")
        ≡ codes "69c4e0d86a7b0430d8cdb78070b4c55a" }
    ensures dec { reply_to (codes "dec 000102030405060708090A0B0C0D0E0F 69C4E0D86A7B0430D8CDB78070B4C55A")
        ≡ codes "00112233445566778899aabbccddeeff" }
    ensures no_fault { is_fault (codes "enc 000102030405060708090a0b0c0d0e0f 00112233445566778899aabbccddeeff")
        ≡ false }
{
    examples::cipher_128();
}

/// Replies to `round`, `invround`, `mix` and `invmix`, by appendix C.1: round 1 of the cipher and
/// of the equivalent inverse cipher, and the column mixing of both.
#[tactic(auto, unfolding(crate::proofs::OnLiterals::replies_on_literals))]
pub fn round_replies()
    ensures round { reply_to (codes "round 00102030405060708090a0b0c0d0e0f0 d6aa74fdd2af72fadaa678f1d6ab76fe")
        ≡ codes "89d810e8855ace682d1843d8cb128fe4" }
    ensures invround { reply_to (codes "invround 7ad5fda789ef4e272bca100b3d9ff59f 13aa29be9c8faff6f770f58000f7bf03")
        ≡ codes "54d990a16ba09ab596bbf40ea111702f" }
    ensures mix { reply_to (codes "mix 6353e08c0960e104cd70b751bacad0e7") ≡ codes "5f72641557f5bc92f7be3b291db9f91a" }
    ensures invmix { reply_to (codes "invmix e9f74eec023020f61bf2ccf2353c21c7")
        ≡ codes "54d990a16ba09ab596bbf40ea111702f" }
{
    examples::step_examples();
    examples::inverse_step_examples();
}

/// The reply to `sched`, by appendix A.1: the expansion of its key.
#[tactic(auto, unfolding(crate::proofs::OnLiterals::replies_on_literals))]
pub fn schedule_reply()
    ensures { reply_to (codes "sched 2b7e151628aed2a6abf7158809cf4f3c") ≡ codes "2b7e151628aed2a6abf7158809cf4f3c"
        ++ codes " a0fafe1788542cb123a339392a6c7605 f2c295f27a96b9435935807a7359f67f 3d80477d4716fe3e1e237e446d7a883b"
        ++ codes " ef44a541a8525b7fb671253bdb0bad00 d4d1c6f87c839d87caf2b8bc11f915bc 6d88a37a110b3efddbf98641ca0093fd"
        ++ codes " 4e54f70e5f5fc9f384a64fb24ea6dc4f ead27321b58dbad2312bf5607f8d292f ac7766f319fadc2128d12941575c006e"
        ++ codes " d014f9a8c9ee2589e13f0cc8b6630ca6" }
{
    examples::key_expansion_128();
}

/// Each fault. Of several, the first is reported: that of the command, then of the digits, of the
/// key, of the block.
#[tactic(auto, unfolding(crate::proofs::OnLiterals::replies_on_literals))]
pub fn fault_replies()
    ensures unknown { reply_to (codes "encrypt 00 00") ≡ codes "error command" }
    ensures too_many { reply_to (codes "mix 00 00") ≡ codes "error command" }
    ensures too_few { reply_to (codes "round 00") ≡ codes "error command" }
    ensures digit { reply_to (codes "mix 0g") ≡ codes "error hex" }
    ensures odd { reply_to (codes "enc 00 000") ≡ codes "error hex" }
    ensures key { reply_to (codes "enc 00 00") ≡ codes "error key" }
    ensures block { reply_to (codes "mix 00") ≡ codes "error block" }
    ensures is_one { is_fault (codes "mix 00") ≡ true }
{}

/// Which numbers of bytes are the size of a key, and which are the size of at most 64 blocks.
pub fn size_examples()
    ensures keys { map is_key_size (8 ∷ 16 ∷ 20 ∷ 24 ∷ 32 ∷ 64 ∷ []) ≡ false ∷ true ∷ false ∷ true ∷ true ∷ false ∷ [] }
    ensures blocks { map is_size_of_blocks (0 ∷ 8 ∷ 16 ∷ 1016 ∷ 1024 ∷ 1040 ∷ [])
        ≡ true ∷ false ∷ true ∷ false ∷ true ∷ false ∷ [] }
{}

/// The answers to a text. Each ends with a line end, an empty line has an answer, and the end of
/// the last line begins no other line.
#[tactic(auto, unfolding(crate::proofs::OnLiterals::replies_on_literals))]
pub fn text_answers()
    ensures text { answers_to (codes "mix 0" ++ 10 ∷ 10 ∷ codes "mix 00" ++ 10 ∷ [])
        ≡ codes "error hex" ++ 10 ∷ codes "error command" ++ 10 ∷ codes "error block" ++ 10 ∷ [] }
    ensures fault { has_fault (codes "mix 00") ≡ true }
    ensures none { has_fault [] ≡ false }
{}

/// The exit status if every line was answered, if one was at fault, and if the run failed.
pub fn status_examples()
    ensures answered { status_of (Ok false) ≡ 0 }
    ensures fault { status_of (Ok true) ≡ 1 }
    ensures failed { (failed : Failed) → status_of (Err failed) ≡ 2 }
{}
