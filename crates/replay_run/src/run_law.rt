//! How a run follows its script. This function does nothing; its contract is a law.

ghost use Rattle.std.specs.Prelude.{◌≡◌, ◌≢◌, ◌<◌, ◌≤◌, ◌==◌, ◌^◌, ◌++◌, ◌∷◌, [], ℕ, List, None, Option, Some, false, length, map, position, slice_get, slice_set};
ghost use Rattle.std.specs.Io.KnownBytes.{Appends};
ghost use Rattle.mrpc_base.specs.Quota.{Counters, drawn_in};
ghost use Rattle.mrpc_table.specs.declared.limits.TheConstants.{MAX_HEAP, MIN_HEAP};
ghost use Rattle.replay_script.specs.Lines.{IsScript, conn_of, is_conn};
ghost use Rattle.replay_script.specs.declared.script.ScriptLine.{ScriptLine};
ghost use Rattle.replay_script.specs.declared.script.ScriptLine.TheVariants.{Conn};
ghost use Rattle.replay_script.specs.declared.script.Script.{Script};
ghost use Rattle.replay_run.specs.Follows.{new_connection};
ghost use Rattle.replay_run.specs.Kept.{HasRunSomeLines, IsRunBefore, HasBroken, IsBrokenAndWritten, IsDoneAndWritten, HaveCounted, IsJustOpened, IsBetweenLines, KnowsTenants, MayRun, IsStoppedAt, IsPrefixWritten, open_connection_of};
ghost use Rattle.replay_run.specs.PendingLines.{all_stands_lines};
ghost use Rattle.replay_run.specs.Running.{IsBrokenRun, IsFullRun, IsStoppedRun};
ghost use Rattle.replay_run.specs.declared.connection.RunConnection.{RunConnection};

use call_history::{
    connections_are_independent, drains_settle, histories_after_event,
    transitions_preserve_invariant,
};

// A law for the proofs of a run.
pub(crate) fn run_follows_script()
    // No line was run.
    ensures begins { (s : Script) (quotas : Counters) (out wire : Option (List ℕ))
        → quotas.tenants ≡ length s.declared.tenants → ((tenant window : ℕ) → drawn_in quotas tenant window ≡ 0)
        → HasRunSomeLines s [] [] quotas out out wire wire }
    // The run stops at once, or after its last line.
    ensures at_once { (s : Script) (out wire : Option (List ℕ)) → IsStoppedRun s out out wire wire }
    ensures at_end { (s : Script) (cs : List RunConnection) (quotas : Counters) (out out' wire wire' : Option (List ℕ))
        → HasRunSomeLines s s.lines cs quotas out out' wire wire' → (last : Option (List ℕ))
        → IsPrefixWritten out' last (all_stands_lines (map open_connection_of cs))
        → IsStoppedRun s out last wire wire' }
    // A line that opens a connection.
    ensures words { (s : Script) (conn words : ℕ) (cs : List RunConnection) (quotas : Counters)
        (out wire : Option (List ℕ)) → IsScript s → IsRunBefore s (Conn conn words) cs quotas out wire
        → (MIN_HEAP ≤ words) × (words ≤ MAX_HEAP) }
    ensures opens { (s : Script) (conn words : ℕ) (cs : List RunConnection) (c : RunConnection) (quotas : Counters)
        (out wire : Option (List ℕ)) → (b : IsRunBefore s (Conn conn words) cs quotas out wire)
        → open_connection_of c ≡ new_connection conn words → IsJustOpened s.table s.loads c
        → HasRunSomeLines s (b.lines ++ Conn conn words ∷ []) (cs ++ c ∷ []) quotas b.out out b.wire wire }
    ensures stops { (s : Script) (l : ScriptLine) (cs : List RunConnection) (quotas : Counters)
        (out wire : Option (List ℕ))
        → (b : IsRunBefore s l cs quotas out wire) → IsStoppedRun s b.out out b.wire wire }
    // A line of an open connection.
    ensures is_open { (s : Script) (l : ScriptLine) (cs : List RunConnection) (quotas : Counters)
        (out wire : Option (List ℕ))
        → IsScript s → IsRunBefore s l cs quotas out wire → is_conn l ≡ false
        → position (λ c. c.calls.conn == conn_of l) cs ≢ None }
    ensures ready { (s : Script) (l : ScriptLine) (cs : List RunConnection) (quotas : Counters)
        (out wire : Option (List ℕ))
        (place : ℕ) (c : RunConnection) → IsScript s → length s.lines < 2 ^ 25 → IsRunBefore s l cs quotas out wire
        → is_conn l ≡ false → position (λ c. c.calls.conn == conn_of l) cs ≡ Some place → slice_get cs place ≡ Some c
        → (conn_of l ≡ c.calls.conn) × IsBetweenLines s c × MayRun s l c × KnowsTenants quotas c.calls }
    ensures goes_on { (s : Script) (l : ScriptLine) (cs : List RunConnection) (place : ℕ) (c d : RunConnection)
        (quotas quotas' : Counters) (out out' wire wire' : Option (List ℕ)) → IsScript s
        → (b : IsRunBefore s l cs quotas out wire) → conn_of l ≡ c.calls.conn → slice_get cs place ≡ Some c
        → IsDoneAndWritten s l c d quotas quotas' out out' wire wire'
        → HasRunSomeLines s (b.lines ++ l ∷ []) (slice_set cs place d) quotas' b.out out' b.wire wire' }
    ensures breaks { (s : Script) (l : ScriptLine) (cs : List RunConnection) (place : ℕ) (c d : RunConnection)
        (quotas quotas' : Counters) (out out' wire wire' : Option (List ℕ)) → IsScript s
        → (b : IsRunBefore s l cs quotas out wire) → conn_of l ≡ c.calls.conn → slice_get cs place ≡ Some c
        → IsBrokenAndWritten s l c d quotas quotas' out out' wire wire'
        → HasBroken s (slice_set cs place d) quotas' b.out out' b.wire wire' }
    ensures stops_at { (s : Script) (l : ScriptLine) (cs : List RunConnection) (place : ℕ) (c : RunConnection)
        (quotas : Counters)
        (out out' wire wire' : Option (List ℕ)) → IsScript s → (b : IsRunBefore s l cs quotas out wire)
        → conn_of l ≡ c.calls.conn → slice_get cs place ≡ Some c → IsStoppedAt s l c out out' wire wire'
        → IsStoppedRun s b.out out' b.wire wire' }
    // The end of a run whose quotas know all their tickets, after the last line or after a send that failed.
    ensures replays { (s : Script) (cs : List RunConnection) (quotas : Counters)
        (out out' last wire wire' : Option (List ℕ)) → IsScript s
        → HasRunSomeLines s s.lines cs quotas out out' wire wire'
        → HaveCounted (length s.declared.tenants) quotas
        → Appends out' last (all_stands_lines (map open_connection_of cs))
        → IsFullRun s out last wire wire' }
    ensures broke { (s : Script) (cs : List RunConnection) (quotas : Counters)
        (out out' last wire wire' : Option (List ℕ)) → IsScript s → HasBroken s cs quotas out out' wire wire'
        → HaveCounted (length s.declared.tenants) quotas
        → Appends out' last (all_stands_lines (map open_connection_of cs))
        → IsBrokenRun s out last wire wire' }
    ensures stops_broken { (s : Script) (cs : List RunConnection) (quotas : Counters)
        (out out' last wire wire' : Option (List ℕ)) → HasBroken s cs quotas out out' wire wire'
        → IsPrefixWritten out' last (all_stands_lines (map open_connection_of cs))
        → IsStoppedRun s out last wire wire' }
{
    histories_after_event();
    connections_are_independent();
    transitions_preserve_invariant();
    drains_settle();
}
