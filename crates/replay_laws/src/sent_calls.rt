//! Laws of which calls are sent. These functions do nothing; each contract is a law.

ghost use Rattle.std.specs.Prelude.{◌≡◌, [], All, List, ℕ, false, map};
ghost use Rattle.call_history.specs.Trace.{Trace, chain, has_failed, pending_calls, taken};
ghost use Rattle.call_history.specs.Frames.{frame_of, frames_of_trace};
ghost use Rattle.call_history.specs.Legal.{IsLegalTrace, trace_of};
ghost use Rattle.call_history.specs.Positions.{AreLegalPositions, IsSettled};
ghost use Rattle.call_history.specs.Rules.{JudgeContext};
ghost use Rattle.replay_script.specs.Lines.{IsScript};
ghost use Rattle.replay_script.specs.declared.script.Script.{Script};
ghost use Rattle.replay_run.specs.Follows.{Follows, ScriptState};
ghost use Rattle.replay_laws.specs.Scripts.{IsDrainedLast};
ghost use Rattle.replay_laws.specs.SetFirst.{IsAccessOrCount, IsSetFirst, allowed_copies};

use call_history::{connections_are_independent, histories_after_event, pending_after_event};
use replay_run::{drained_connection_is_settled, replay_is_legal};

/// Let a chain be set up before the first call, with access and count policies alone. If the link hasn't failed and no
/// call is pending, the frames of the connection are those of the copies that all entries allow, in order. On a chain
/// with such policies no call is pending once no call can advance, as after a drain.
pub fn allowed_calls_are_sent()
    ensures frames { (u : JudgeContext) (past : Trace) → IsLegalTrace u past → IsSetFirst past
        → All (λ e. IsAccessOrCount e.policy) (chain past).entries → has_failed past ≡ false → pending_calls past ≡ []
        → frames_of_trace u.table u.conn past
        ≡ map (frame_of u.table) (allowed_copies u.conn (chain past).entries (taken past)) }
    ensures none_stands { (u : JudgeContext) (past : Trace) (positions : List ℕ) → AreLegalPositions u past positions
        → IsSettled u past positions → All (λ e. IsAccessOrCount e.policy) (chain past).entries
        → pending_calls past ≡ [] }
{
    pending_after_event();
}

/// Let a script be run in full, and drain a connection after its last submission. If its chain was set up before its
/// first call, with access and count policies alone, its frames are those of the copies that all entries allow, in
/// order.
pub fn allowed_calls_of_a_script_are_sent()
    ensures { (s : Script) (end : ScriptState) (conn : ℕ) → IsScript s → Follows s end → IsDrainedLast s conn
        → IsSetFirst (trace_of conn end.history)
        → All (λ e. IsAccessOrCount e.policy) (chain (trace_of conn end.history)).entries
        → frames_of_trace s.table conn (trace_of conn end.history) ≡ map (frame_of s.table)
        (allowed_copies conn (chain (trace_of conn end.history)).entries (taken (trace_of conn end.history))) }
{
    pending_after_event();
    histories_after_event();
    connections_are_independent();
    replay_is_legal();
    drained_connection_is_settled();
}
