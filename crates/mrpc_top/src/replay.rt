//! Laws of the scripts that `replay` reads, and of the histories that follow from them.

ghost use Rattle.std.specs.Prelude.{◌≡◌, ◌⊎◌, All, List, length, ℕ};
ghost use Rattle.mrpc_table.specs.declared.call.Call.{Call};
ghost use Rattle.script_grammar.specs.declared.fault.ScriptReason.{ScriptReason};
ghost use Rattle.replay_script.specs.Texts.{IsScriptText, IsScriptFault};
ghost use Rattle.replay_script.specs.declared.script.Script.{Script};
ghost use Rattle.call_history.specs.Frames.{frames};
ghost use Rattle.call_history.specs.Legal.{IsLegal};
ghost use Rattle.replay_run.specs.Follows.{ScriptState, Follows, FollowsUntil, script_context};
ghost use Rattle.replay_run.specs.Consistency.{IsAllowed, IsConsistentOn};

use replay_run::{replay_is_deterministic, replay_is_legal};
use replay_script::replay_script_or_fault;

/// A text has at most one replay. It has one script or one first fault, never both. At most one history
/// follows from the script, with its loads and its pending calls, both for the whole script and up to a send
/// that fails after a given number of sent calls. The history is legal. On each connection its loads are
/// those of its calls, each part of a message is loaded once, and each pending call is at a legal position.
pub fn replay_is_unique()
    ensures scripts { (text : List ℕ) (s t : Script) → IsScriptText text s → IsScriptText text t → s ≡ t }
    ensures failures { (text : List ℕ) (line at : ℕ) (reason other : ScriptReason) → IsScriptFault text line reason
        → IsScriptFault text at other → (line ≡ at) × (reason ≡ other) }
    ensures never_both { (text : List ℕ) (s : Script) (line : ℕ) (reason : ScriptReason) → IsScriptText text s
        → IsScriptFault text line reason → ⊥ }
    ensures script_or_fault { (text : List ℕ)
        → ((s : Script) × IsScriptText text s)
        ⊎ ((line : ℕ) × (reason : ScriptReason) × IsScriptFault text line reason) }
    ensures one { (text : List ℕ) (s : Script) (end other : ScriptState) → IsScriptText text s → Follows s end
        → Follows s other
        → end ≡ other }
    ensures one_until { (text : List ℕ) (s : Script) (tried instead : Call) (end other : ScriptState)
        → IsScriptText text s
        → FollowsUntil s tried end → FollowsUntil s instead other
        → length (frames s.table end.history) ≡ length (frames s.table other.history)
        → (tried ≡ instead) × (end ≡ other) }
    ensures legal { (text : List ℕ) (s : Script) (end : ScriptState) → IsScriptText text s → Follows s end
        → IsLegal s.table s.loads end.history × All (IsConsistentOn s end.history) end.opened }
    ensures legal_until { (text : List ℕ) (s : Script) (tried : Call) (end : ScriptState) → IsScriptText text s
        → FollowsUntil s tried end → IsLegal s.table s.loads end.history
        × All (IsConsistentOn s end.history) end.opened }
    // The call whose send fails may be sent: every entry of its chain lets it pass.
    ensures allowed { (text : List ℕ) (s : Script) (tried : Call) (end : ScriptState) → IsScriptText text s
        → (f : FollowsUntil s tried end)
        → IsAllowed (script_context s f.until.one.conn) f.until.fails.at f.until.fails.seq }
{
    replay_script_or_fault();
    replay_is_deterministic();
    replay_is_legal();
}
