//! Laws of lines and words, and of runs. A call has no effect; its contract states the law.
ghost use Rattle.std.specs.Prelude.{◌≡◌, ◌-◌, ◌∷◌, ◌++◌, [], ℕ, Bool, List, Option, All, length, take};
ghost use Rattle.std.specs.List.{join_with_byte};
ghost use Rattle.aes_kat.specs.Answers.{answers_to, has_fault, Runs};
ghost use Rattle.aes_kat.specs.declared.runs.Failed.{Failed};
ghost use Rattle.aes_kat.specs.Lines.{parts_at, without_empty_last, lines_of, words_of, Lacks};

/// A text is made by only one list of one or more byte lists without the separator, joined by the
/// separator: by the parts of the text. So a line has only one list of words. A text has only one
/// list of lines, from which an empty last line is dropped.
#[tactic(auto, using(crate::proofs::Lines::line_laws))]
pub fn parts_are_unique()
    ensures joined { (separator : ℕ) (text : List ℕ)
        → join_with_byte separator (parts_at separator text) ≡ text }
    ensures lacking { (separator : ℕ) (text : List ℕ)
        → All (Lacks separator) (parts_at separator text) }
    ensures only { (separator : ℕ) (text first : List ℕ) (more : List (List ℕ))
        → All (Lacks separator) (first ∷ more)
        → join_with_byte separator (first ∷ more) ≡ text → parts_at separator text ≡ first ∷ more }
    ensures words { (line first : List ℕ) (more : List (List ℕ)) → All (Lacks 32) (first ∷ more)
        → join_with_byte 32 (first ∷ more) ≡ line → words_of line ≡ first ∷ more }
    ensures lines { (text first : List ℕ) (more : List (List ℕ)) → All (Lacks 10) (first ∷ more)
        → join_with_byte 10 (first ∷ more) ≡ text
        → lines_of text ≡ without_empty_last (first ∷ more) }
{}

/// What a run does to known bytes. If it succeeds, no input is left, the answers to all of it are
/// written, and a fault is returned exactly if there is one. If it fails, some first bytes of the
/// answers are written.
pub fn run_parts()
    ensures answered { (fault : Bool) (text old new : List ℕ) (left : Option (List ℕ))
        → Runs (Ok fault) (Some text) left (Some old) (Some new) → new ≡ old ++ answers_to text }
    ensures fault { (fault : Bool) (text old new : List ℕ) (left : Option (List ℕ))
        → Runs (Ok fault) (Some text) left (Some old) (Some new) → fault ≡ has_fault text }
    ensures ended { (fault : Bool) (left : List ℕ) (input output written : Option (List ℕ))
        → Runs (Ok fault) input (Some left) output written → left ≡ [] }
    ensures failed { (failed : Failed) (text old new : List ℕ) (left : Option (List ℕ))
        → Runs (Err failed) (Some text) left (Some old) (Some new)
        → new ≡ old ++ take (length new - length old) (answers_to text) }
{}
