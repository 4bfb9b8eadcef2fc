//! Laws of what follows from each script. The function does nothing; its contract is the law.

ghost use Rattle.std.specs.Prelude.{◌<◌, ℕ, length};
ghost use Rattle.mrpc_table.specs.declared.call.Call.{Call};
ghost use Rattle.replay_script.specs.Lines.{IsScript};
ghost use Rattle.replay_script.specs.declared.script.Script.{Script};
ghost use Rattle.call_history.specs.Frames.{frames};
ghost use Rattle.replay_run.specs.Follows.{Follows, FollowsUntil, ScriptState};
ghost use Rattle.replay_laws.specs.Histories.{HasOneEnd, HasOneFailure};

use call_history::{
    chain_after_event, connections_are_independent, drains_settle, frames_after_event,
    histories_after_event, pending_calls_have_forms, transitions_preserve_invariant,
};
use engine_core::{answer_is_unique, changed_is_the_change};
use graph_form::{loads_end_malformed, malformed_graphs_are_within_limit, sound_tree_is_normal};
use policy_redact::clear_shrinks_tree;
use replay_run::{replay_is_deterministic, replay_is_legal};

/// A script has exactly one history in full, with its loads and pending calls. It also has exactly one up to a send
/// that fails, for each number of sends before it that is smaller than the number of sends in full.
pub fn unique_history_exists()
    ensures whole { (s : Script) → IsScript s → HasOneEnd s }
    ensures until { (s : Script) (end : ScriptState) (sent : ℕ) → IsScript s → Follows s end
        → sent < length (frames s.table end.history) → HasOneFailure s sent }
    // The full history has the send that fails, too.
    ensures places { (s : Script) (tried : Call) (end whole : ScriptState) → IsScript s → FollowsUntil s tried end
        → Follows s whole → length (frames s.table end.history) < length (frames s.table whole.history) }
{
    histories_after_event();
    frames_after_event();
    connections_are_independent();
    chain_after_event();
    pending_calls_have_forms();
    transitions_preserve_invariant();
    drains_settle();
    answer_is_unique();
    changed_is_the_change();
    clear_shrinks_tree();
    loads_end_malformed();
    malformed_graphs_are_within_limit();
    sound_tree_is_normal();
    replay_is_legal();
    replay_is_deterministic();
}
