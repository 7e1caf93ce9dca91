//! Laws of the definitions. A call has no effect; its contract states the law.

ghost use Rattle.std.specs.Prelude.{◌≡◌, ℕ, List};
ghost use Rattle.ccm.specs.Ccm.{text};

/// No effect; states that a text is the encryption of its encryption. So decryption undoes
/// encryption.
#[tactic(auto, using(crate::proofs::Counters::text_twice))]
pub fn text_twice()
    ensures { (w : List (List ℕ)) (nonce x : List ℕ) → text w nonce (text w nonce x) ≡ x }
{}
