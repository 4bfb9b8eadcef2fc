//! Laws of what follows from scripts. These functions do nothing; each contract is a law.

ghost use Rattle.std.specs.Prelude.{◌≡◌, ◌++◌, All, List, length, map};
ghost use Rattle.mrpc_table.specs.declared.call.Call.{Call};
ghost use Rattle.replay_script.specs.Lines.{IsScript};
ghost use Rattle.replay_script.specs.declared.script.ScriptLine.{ScriptLine};
ghost use Rattle.replay_script.specs.declared.script.ScriptLine.TheVariants.{Drain};
ghost use Rattle.replay_script.specs.declared.script.Script.{Script};
ghost use Rattle.call_history.specs.Transitions.{IsValidState};
ghost use Rattle.call_history.specs.Frames.{frames};
ghost use Rattle.call_history.specs.Legal.{IsLegal};
ghost use Rattle.call_history.specs.Positions.{IsSettled};
ghost use Rattle.replay_run.specs.Follows.{IsLineEffect, Follows, FollowsUntil, IsStateAfter, OpenConnection, ScriptState, start, script_context};
ghost use Rattle.replay_run.specs.Consistency.{IsAllowed, IsConsistentOn};

use call_history::{
    chain_after_event, connections_are_independent, drains_settle, histories_after_event,
    transitions_are_deterministic, transitions_preserve_invariant,
};
use graph_form::reading_determines_outcome;

/// What follows from a script, in full or up to a send that fails, is legal. On each connection the loads are those of
/// its calls, and pending calls are at legal positions.
pub fn replay_is_legal()
    ensures legal { (s : Script) (end : ScriptState) → IsScript s → Follows s end
        → IsLegal s.table s.loads end.history }
    ensures legal_until { (s : Script) (tried : Call) (end : ScriptState) → IsScript s → FollowsUntil s tried end
        → IsLegal s.table s.loads end.history }
    ensures sound { (s : Script) (end : ScriptState) → IsScript s → Follows s end
        → All (IsConsistentOn s end.history) end.opened }
    ensures sound_until { (s : Script) (tried : Call) (end : ScriptState) → IsScript s → FollowsUntil s tried end
        → All (IsConsistentOn s end.history) end.opened }
    // The same holds after the lines before any other.
    ensures legal_so_far { (s : Script) (lines others : List ScriptLine) (st : ScriptState) → IsScript s
        → s.lines ≡ lines ++ others
        → IsStateAfter s start lines st → IsLegal s.table s.loads st.history }
    ensures sound_so_far { (s : Script) (lines others : List ScriptLine) (st : ScriptState) → IsScript s
        → s.lines ≡ lines ++ others
        → IsStateAfter s start lines st → All (IsConsistentOn s st.history) st.opened }
    // The call whose send fails can be sent: every entry of its chain lets it pass.
    ensures allowed { (s : Script) (tried : Call) (end : ScriptState) → IsScript s → (f : FollowsUntil s tried end)
        → IsAllowed (script_context s f.until.one.conn) f.until.fails.at f.until.fails.seq }
{
    histories_after_event();
    connections_are_independent();
    transitions_preserve_invariant();
    drains_settle();
}

/// After a line that drains a connection, the connection is settled: no call is ready, and the first call at each
/// position is held.
pub fn drained_connection_is_settled()
    ensures { (s : Script) (old new : OpenConnection) → IsValidState (script_context s old.conn) old.course
        → IsLineEffect s (Drain old.conn) old new
        → IsSettled (script_context s old.conn) new.course.past (map (λ call. call.1) new.course.row) }
{
    drains_settle();
}

/// A script has at most one history, with its loads and pending calls: in full, and up to a send that fails after a
/// given number of sends.
pub fn replay_is_deterministic()
    ensures whole { (s : Script) (end other : ScriptState) → IsScript s → Follows s end → Follows s other
        → end ≡ other }
    ensures until { (s : Script) (tried instead : Call) (end other : ScriptState) → IsScript s
        → FollowsUntil s tried end
        → FollowsUntil s instead other → length (frames s.table end.history) ≡ length (frames s.table other.history)
        → (tried ≡ instead) × (end ≡ other) }
{
    histories_after_event();
    connections_are_independent();
    transitions_preserve_invariant();
    drains_settle();
    chain_after_event();
    transitions_are_deterministic();
    reading_determines_outcome();
}
