//! Laws of scripts and their texts. These functions do nothing; each contract is a law.

ghost use Rattle.std.specs.Prelude.{◌≡◌, ◌⊎◌, ℕ, List};
ghost use Rattle.script_grammar.specs.declared.fault.ScriptReason.{ScriptReason};
ghost use Rattle.replay_script.specs.WordLaws.{WordLaws};
ghost use Rattle.replay_script.specs.Lines.{IsScript};
ghost use Rattle.replay_script.specs.Texts.{IsScriptText, IsScriptFault};
ghost use Rattle.replay_script.specs.declared.script.Script.{Script};

use policy_declarations::{declaration_or_fault, declaration_preserves_validity};
use script_grammar::{meanings_or_reason, preamble_or_fault};

/// A text is exactly one script, or has exactly one first fault, never both.
pub fn replay_script_or_fault()
    ensures script { (text : List ℕ) (s t : Script) → IsScriptText text s → IsScriptText text t → s ≡ t }
    ensures fault { (text : List ℕ) (m n : ℕ) (r q : ScriptReason) → IsScriptFault text m r → IsScriptFault text n q
        → (m ≡ n) × (r ≡ q) }
    ensures not_both { (text : List ℕ) (s : Script) (line : ℕ) (r : ScriptReason) → IsScriptText text s
        → IsScriptFault text line r
        → ⊥ }
    ensures either { (text : List ℕ)
        → ((s : Script) × IsScriptText text s) ⊎ ((line : ℕ) × (r : ScriptReason) × IsScriptFault text line r) }
    // Properties of each script that a text is.
    ensures sound { (text : List ℕ) (s : Script) → IsScriptText text s → IsScript s }
{
    preamble_or_fault();
    word_laws();
}

// The laws of words and of declarations.
pub(crate) fn word_laws()
    ensures { WordLaws }
{
    meanings_or_reason();
    declaration_or_fault();
    declaration_preserves_validity();
}
