//! A law of connections. It does nothing; its clauses hold.

ghost use Rattle.std.specs.Prelude.{◌≡◌, ◌≢◌, ◌++◌, ℕ};
ghost use Rattle.call_history.specs.Draining.{HasPartlyDrained};
ghost use Rattle.call_history.specs.Transitions.{IsTransition, ConnState, Transition, accepts};
ghost use Rattle.call_history.specs.Loads.{AreSpelled, Loads};
ghost use Rattle.call_history.specs.Rules.{JudgeContext};
ghost use Rattle.call_history.specs.declared.happening.AcceptedCall.{AcceptedCall};
ghost use Rattle.conn_core.specs.Connections.{Connection, conn_trace};
ghost use Rattle.conn_core.specs.ConnectionSteps.{IsAcceptance};
ghost use Rattle.conn_core.specs.declared.answers.Ask.{Ask};

/// The loads of a connection's accepted calls. An acceptance appends its own loads; no other transition and no
/// drain adds any.
pub fn loads_after_transition()
    ensures accepted { (H seq : ℕ) (ask : Ask) (own loads : Loads) (before after : Connection)
        → IsAcceptance H ask seq own before after → AreSpelled before.table H before.limit (conn_trace before) loads
        → AreSpelled before.table H before.limit (conn_trace after) (loads ++ own) }
    ensures other { (u : JudgeContext) (H : ℕ) (loads : Loads) (old new : ConnState) (event : Transition)
        → IsTransition u old event new
        → ((call : AcceptedCall) → event ≢ accepts call) → AreSpelled u.table H u.limit old.past loads
        → AreSpelled u.table H u.limit new.past loads }
    ensures drained { (u : JudgeContext) (H : ℕ) (loads : Loads) (old new : ConnState) → HasPartlyDrained u old new
        → AreSpelled u.table H u.limit old.past loads → AreSpelled u.table H u.limit new.past loads }
{}
