//! Laws of the definitions. A call has no effect; its contract states the law.

ghost use Rattle.std.specs.Prelude.{◌≡◌, ℕ, List};
ghost use Rattle.gcm_siv.specs.GcmSiv.{text};

/// No effect; states that a text is the encryption of its encryption. So decryption undoes
/// encryption.
#[tactic(auto, using(crate::proofs::Messages::text_twice))]
pub fn text_twice()
    ensures { (key nonce tag x : List ℕ) → text key nonce tag (text key nonce tag x) ≡ x }
{}
