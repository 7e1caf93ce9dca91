//! Splits a text at its first separator.
ghost use Rattle.std.specs.Prelude.{◌≡◌, ◌∷◌, ◌++◌, MatchOption};
ghost use Rattle.aes_kat.specs.Lines.{Lacks};

// The bytes before the first `separator` and those after it, or `None` if there is none.
#[tactic(auto, using(crate::proofs::Lines::split_calls))]
pub(crate) fn split_once(text: &[u8], separator: u8) -> Option<(&[u8], &[u8])>
    ensures { MatchOption result (Lacks separator text.now)
        (λ parts. (text.now ≡ parts.0.now ++ separator ∷ parts.1.now)
        × Lacks separator parts.0.now) }
{
    for (at, byte) in text.iter().enumerate() {
        if *byte == separator {
            return Some((&text[..at], &text[at + 1..]));
        }
    }
    None
}
