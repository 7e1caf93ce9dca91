//! Laws of the definitions. A call has no effect; its contract states the law.

ghost use Rattle.std.specs.Prelude.{◌≡◌, ℕ, List};
ghost use Rattle.std.specs.List.{concat};
ghost use Rattle.aes_ctr.specs.CounterMode.{keystream_byte, plus_stream, pieces_plus_stream};

/// No effect; states that data may be cut anywhere. The keystream is added to each piece, from
/// where it ended for the piece before. Joined, the results are the joined pieces plus the
/// keystream.
#[tactic(auto, using(crate::proofs::Sums::pieces_summed))]
pub fn stream_cut()
    ensures { (w : List (List ℕ)) (iv : List ℕ) (position : ℕ) (pieces : List (List ℕ)) →
        concat (pieces_plus_stream (keystream_byte w iv) position pieces)
        ≡ plus_stream (keystream_byte w iv) position (concat pieces) }
{}

/// No effect; states that adding the keystream twice, from the same place on, changes nothing.
#[tactic(auto, using(crate::proofs::Sums::summed_twice))]
pub fn stream_twice()
    ensures { (w : List (List ℕ)) (iv : List ℕ) (position : ℕ) (bytes : List ℕ) →
        plus_stream (keystream_byte w iv) position
        (plus_stream (keystream_byte w iv) position bytes) ≡ bytes }
{}
