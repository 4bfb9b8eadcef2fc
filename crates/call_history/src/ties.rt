//! Laws of engines and calls that agree with a trace. These functions do nothing; their clauses hold.

ghost use Rattle.std.specs.Prelude.{ℕ, List, [], ◌∷◌, remove};
ghost use Rattle.engine_core.specs.Engines.{EngineParts};
ghost use Rattle.engine_core.specs.Marks.{PendingCall};
ghost use Rattle.call_history.specs.Trace.{Trace};
ghost use Rattle.call_history.specs.Ties.{AreTied, AreTiedAfterAttach, AreTiedAfterDetach, IsNumberApart, AreTiedAfterTimestamp, AreTiedAfterAcceptance, AreTiedAfterUpgrade, AreTiedAfterTurn};
ghost use Rattle.call_history.specs.declared.happening.Cause.{Cause};
ghost use Rattle.call_history.specs.declared.happening.Happening.TheVariants.{Away, Refused, Sent, Took};
ghost use Rattle.call_history.specs.declared.happening.AcceptedCall.{AcceptedCall};

use engine_core::{change_preserves_chain, changed_is_the_change, unmarked_is_true};

/// Engines and calls that agree with a trace still agree after one more event. An acceptance adds the call with its
/// copy, an operation changes the engines, time fills their buckets, and a turn changes its engine and its call. Any
/// other event leaves them as they are, and each call may leave.
pub fn ties_after_event()
    ensures none { (conn : ℕ) → AreTied conn [] [] 0 [] }
    ensures takes { AreTiedAfterAcceptance }
    ensures takes_none { (conn : ℕ) (past : Trace) (engines : List EngineParts) (attached : ℕ)
        (calls : List PendingCall) (call : AcceptedCall) → AreTied conn past engines attached calls
        → IsNumberApart call.seq calls → AreTied conn (Took call ∷ past) engines attached calls }
    ensures turns_away { (conn : ℕ) (past : Trace) (engines : List EngineParts) (attached : ℕ)
        (calls : List PendingCall) (method number addr : ℕ) → AreTied conn past engines attached calls
        → AreTied conn (Away method number addr ∷ past) engines attached calls }
    ensures sends { (conn : ℕ) (past : Trace) (engines : List EngineParts) (attached : ℕ)
        (calls : List PendingCall) (seq bytes : ℕ) → AreTied conn past engines attached calls
        → AreTied conn (Sent seq bytes ∷ past) engines attached calls }
    ensures refuses { (conn : ℕ) (past : Trace) (engines : List EngineParts) (attached : ℕ)
        (calls : List PendingCall) (seq : ℕ) (why : Cause) → AreTied conn past engines attached calls
        → AreTied conn (Refused seq why ∷ past) engines attached calls }
    ensures leaves { (conn : ℕ) (past : Trace) (engines : List EngineParts) (attached : ℕ)
        (calls : List PendingCall) (place : ℕ) → AreTied conn past engines attached calls
        → AreTied conn past engines attached (remove calls place) }
    ensures attaches { AreTiedAfterAttach }
    ensures detaches { AreTiedAfterDetach }
    ensures upgrades { AreTiedAfterUpgrade }
    ensures shows { AreTiedAfterTimestamp }
    ensures works { AreTiedAfterTurn }
{
    change_preserves_chain();
    changed_is_the_change();
    unmarked_is_true();
}
