//! Laws of words. These functions do nothing; each contract is a law.

ghost use Rattle.std.specs.Prelude.{◌≡◌, ◌≤◌, ◌⊎◌, ℕ, List};
ghost use Rattle.script_grammar.specs.Reasons.{script_reason_rank, IsFirstReason};
ghost use Rattle.script_grammar.specs.Lines.{HaveMeanings, HasReason};
ghost use Rattle.script_grammar.specs.WordKinds.{Meaning};
ghost use Rattle.script_grammar.specs.declared.fault.ScriptReason.{ScriptReason};
ghost use Rattle.script_grammar.specs.declared.word_kind.WordKind.{WordKind};

/// The words of a line, under a list of sorts, have exactly one list of values, or exactly one first reason, never
/// both.
pub fn meanings_or_reason()
    ensures one { (sorts : List WordKind) (words : List (List ℕ)) (ms ns : List Meaning)
        → HaveMeanings sorts words ms → HaveMeanings sorts words ns → ms ≡ ns }
    // No two reasons have the same rank.
    ensures order { (r q : ScriptReason) → script_reason_rank r ≤ script_reason_rank q → script_reason_rank q ≤ script_reason_rank r → r ≡ q }
    ensures either { (sorts : List WordKind) (words : List (List ℕ))
        → ((ms : List Meaning) × HaveMeanings sorts words ms)
        ⊎ ((r : ScriptReason) × IsFirstReason (HasReason sorts words) r) }
    ensures not_both { (sorts : List WordKind) (words : List (List ℕ)) (ms : List Meaning) (r : ScriptReason)
        → HaveMeanings sorts words ms → HasReason sorts words r → ⊥ }
{}
