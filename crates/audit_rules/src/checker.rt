//! The checker of one connection.

ghost use Rattle.std.specs.Bool.{OnFalse, OnTrue};
ghost use Rattle.std.specs.Prelude.{◌≡◌, ◌↔◌, ◌<◌, ◌+◌, ◌∷◌, [], ℕ};
ghost use Rattle.std.specs.Prelude.{IfNone, IfOk, IfSome, IsTrue, None, Some};
ghost use Rattle.std.specs.Prelude.{length, slice_get};
ghost use Rattle.mrpc_table.specs.Valid.{IsValid};
ghost use Rattle.mrpc_table.specs.declared.table.Table.{Table as TheTable};
ghost use Rattle.call_history.specs.Trace.{Trace, pending_calls};
ghost use Rattle.call_history.specs.Legal.{HasLinkObligation, HasNoObligation};
ghost use Rattle.call_history.specs.Rules.{IsNumbered, MayTake, IsRefusedIfPastCap, IsMalformedRefusedAtOnce, IsEndedWithLink, CanFollow};
ghost use Rattle.call_history.specs.Rules.{IsChainPreserved};
ghost use Rattle.call_history.specs.declared.happening.Cause.TheVariants as cause;
ghost use Rattle.call_history.specs.declared.happening.Happening.TheVariants.{Away, Drawn, Moment};
ghost use Rattle.call_history.specs.declared.happening.Happening.TheVariants.{Redacted, Refused, Sent, Took};
ghost use Rattle.audit_rules.specs.BrokenRules.{IsFirstBrokenRule, HasObligation};
ghost use Rattle.audit_rules.specs.CheckerState.{IsCopyBy, HasNoMalformed, IsUnblocked, IsKnowing};
ghost use Rattle.audit_rules.specs.CheckerState.{IsReadable, IsCheckerAfter, IsObligationAfter, IsOwnRuleKept, pending_numbers, checker_context};
ghost use Rattle.audit_rules.specs.EventKinds.{first_broken_rule, own_rule};
ghost use Rattle.audit_rules.specs.declared.obligation.Obligation.TheVariants.{Nothing};

use crate::ask::seq_at;
use crate::event_kinds::{is_copy_by, is_quiet, is_refusal_over_cap, malformed_in, transport_in};
use crate::obligation::Obligation;
use crate::rule::Rule;
use call_history::{
    AcceptedCall, Happening, TookCopy, forms_after_event, pending_after_event, ties_after_event,
};
use engine_core::{CallRow, Engine, MAX_CALLS, MAX_ENGINES, Noted, Op, Standing, clock_all};
use mrpc_table::{Call, Memory, Table};
use std::alloc::Global;
use std::collections::VecDeque;

/// The state of one connection after its events so far, as far as later checks need it.
#[derive(Drop)]
pub struct Checker {
    pub(crate) conn: u32,
    pub(crate) limit: u64,
    pub(crate) engines: Vec<Engine>,
    // For each engine, the greatest call number noted since its attachment; 0 if there is none.
    pub(crate) latest: Vec<u32>,
    pub(crate) attached: u32,
    pub(crate) calls: CallRow,
    // For each call, how many entries from the first are known to let it pass.
    pub(crate) reached: VecDeque<usize>,
    pub(crate) taken: u32,
    pub(crate) moment: u64,
    pub(crate) failed: bool,
    pub(crate) left: Obligation,
    // How many pending calls the audit has listed so far, and the position of the last one.
    pub(crate) told: usize,
    pub(crate) position: usize,
}

impl Checker {
    /// Makes a checker of a connection without events, under a limit of loads. It reserves room for all engines and
    /// calls, so that later checks allocate nothing.
    pub fn open(alloc: Global, conn: u32, limit: u64) -> Result<Checker, Memory>
        ensures knows { IfOk result (λ c. (T : TheTable) → IsCheckerAfter T [] c) }
        ensures conn { IfOk result (λ c. (T : TheTable)
            → checker_context T c ≡ record { conn = conn; table = T; limit = limit }) }
    {
        ties_after_event();
        Ok(Checker {
            conn,
            limit,
            engines: Vec::with_capacity(alloc, MAX_ENGINES)?,
            latest: Vec::with_capacity(alloc, MAX_ENGINES)?,
            attached: 0,
            calls: CallRow::open(alloc)?,
            reached: VecDeque::with_capacity(alloc, MAX_CALLS)?,
            taken: 0,
            moment: 0,
            failed: false,
            left: Obligation::Nothing,
            told: 0,
            position: MAX_ENGINES,
        })
    }

    /// Checks the next event. Returns the first rule that it breaks; `None` if it breaks none, and then the checker
    /// includes the event. After a rule was returned, the checker's state is unspecified.
    pub fn check(&mut self, table: &Table, what: Happening) -> Option<Rule>
        requires valid { IsValid table.now }
        requires knowing { IsKnowing table.now self.old }
        requires readable { IsReadable table.now what }
        ensures may { (past : Trace) → IsCheckerAfter table.now past self.old
            → IfNone result (CanFollow (checker_context table.now self.old) past what) }
        ensures knows { (past : Trace) → IsCheckerAfter table.now past self.old
            → IfNone result (IsCheckerAfter table.now (what ∷ past) self.new) }
        ensures breaks { (past : Trace) → IsCheckerAfter table.now past self.old
            → IfSome result (λ rule. IsFirstBrokenRule (checker_context table.now self.old) past what rule) }
        ensures same { (T : TheTable) → checker_context T self.new ≡ checker_context T self.old }
    {
        if !self.is_numbered(table, &what) {
            return Some(Rule::A);
        }
        if !self.refuses_malformed(&what) {
            return Some(Rule::B);
        }
        let drawn = self.refuses_drawn(&what);
        let linked = self.keeps_link(&what);
        let own = own_rule(&what);
        let kept = self.apply(table, what);
        first_broken_rule(own, kept, drawn, linked)
    }

    // ---- rules for every event

    // The number of pending calls, including a malformed one that awaits its refusal.
    fn pending_count(&self) -> usize
        ensures { result ≡ length (pending_numbers self.now) }
    {
        match self.left {
            Obligation::RefuseMalformed { .. } => self.calls.len() + 1,
            Obligation::Nothing | Obligation::RefuseOverCap { .. } => self.calls.len(),
        }
    }

    // The number of the first pending call.
    pub(crate) fn first_pending(&self) -> Option<u32>
        ensures { result ≡ slice_get (pending_numbers self.now) 0 }
    {
        if !self.calls.is_empty() {
            return Some(seq_at(&self.calls, 0));
        }
        match self.left {
            Obligation::RefuseMalformed { seq } => Some(seq),
            Obligation::Nothing | Obligation::RefuseOverCap { .. } => None,
        }
    }

    // Returns true if an accepted call has the next number, or a submission was rejected while `MAX_CALLS` calls were
    // pending. Other events have no number to check.
    fn is_numbered(&self, table: &Table, what: &Happening) -> bool
        requires { IsReadable table.now what.now }
        ensures { (past : Trace) → IsCheckerAfter table.now past self.now
            → IsTrue result ↔ IsNumbered (checker_context table.now self.now) past what.now }
    {
        match what {
            Happening::Took(call) => self.may_take(table, call),
            Happening::Away { .. } => self.pending_count() == MAX_CALLS,
            _ => true,
        }
    }

    fn may_take(&self, table: &Table, call: &AcceptedCall) -> bool
        requires { IsCopyBy table.now call.now call.now.copy }
        ensures { (past : Trace) → IsCheckerAfter table.now past self.now
            → IsTrue result ↔ MayTake (checker_context table.now self.now) past call.now }
    {
        call.seq as u64 == self.taken as u64 + 1
            && self.pending_count() < MAX_CALLS
            && call.count <= self.limit
            && is_copy_by(table, call)
    }

    // Returns true if a malformed call is refused at once, and no other call is refused as malformed.
    fn refuses_malformed(&self, what: &Happening) -> bool
        ensures { (past : Trace) → IsObligationAfter past self.now.left
            → IsTrue result ↔ IsMalformedRefusedAtOnce past what.now }
    {
        let refused = malformed_in(what);
        match self.left {
            Obligation::RefuseMalformed { seq } => refused == Some(seq),
            Obligation::Nothing | Obligation::RefuseOverCap { .. } => refused.is_none(),
        }
    }

    // Returns true if a call whose ticket isn't below the cap is refused at once.
    fn refuses_drawn(&self, what: &Happening) -> bool
        ensures { (T : TheTable) (past : Trace) → IsCheckerAfter T past self.now
            → IsTrue result ↔ IsRefusedIfPastCap past what.now }
    {
        match self.left {
            Obligation::RefuseOverCap {
                seq,
                at,
                ticket,
                cap,
            } => self.refuses_over(what, seq, at, ticket, cap),
            Obligation::Nothing | Obligation::RefuseMalformed { .. } => true,
        }
    }

    // Returns true if the event is the refusal of a call for its ticket, by the entry at a position.
    fn refuses_over(&self, what: &Happening, seq: u32, at: usize, ticket: u64, cap: u64) -> bool
        ensures { IfSome (slice_get self.now.engines.items at) (λ e. IsTrue result
            ↔ (what.now ≡ Refused seq (cause.Quota e.entry.name ticket cap))) }
    {
        match self.engines.get(at) {
            Some(engine) => is_refusal_over_cap(what, seq, engine.name(), ticket, cap),
            None => false,
        }
    }

    // Returns true if the event keeps the rule of a failed link. A refusal for the link has to be that of the first
    // call. After a failure, any other event has to be an operation or a timestamp, and no call pending.
    fn keeps_link(&self, what: &Happening) -> bool
        ensures { (T : TheTable) (past : Trace) → IsCheckerAfter T past self.now
            → IsTrue result ↔ IsEndedWithLink past what.now }
    {
        match transport_in(what) {
            Some(seq) => self.first_pending() == Some(seq),
            None => !self.failed || (is_quiet(what) && self.first_pending().is_none()),
        }
    }

    // ---- rules for one kind of event

    // Applies an event, and returns true if it keeps the rule of its own kind.
    fn apply(&mut self, table: &Table, what: Happening) -> bool
        requires valid { IsValid table.now }
        requires knowing { IsKnowing table.now self.old }
        requires readable { IsReadable table.now what }
        requires numbered { (past : Trace) × IsCheckerAfter table.now past self.old
            × IsNumbered (checker_context table.now self.old) past what }
        requires free { IsUnblocked what self.old.left }
        ensures kept { (past : Trace) → IsCheckerAfter table.now past self.old
            → OnTrue result (IsOwnRuleKept (checker_context table.now self.old) past what (own_rule what)) }
        ensures broken { (past : Trace) → IsCheckerAfter table.now past self.old
            → OnFalse result (IsOwnRuleKept (checker_context table.now self.old) past what (own_rule what) → ⊥) }
        ensures knows { (past : Trace) → IsCheckerAfter table.now past self.old
            → CanFollow (checker_context table.now self.old) past what
            → OnTrue result (IsCheckerAfter table.now (what ∷ past) self.new) }
        ensures same { (T : TheTable) → checker_context T self.new ≡ checker_context T self.old }
    {
        match what {
            Happening::Took(call) => {
                self.accept(call);
                true
            }
            Happening::Away { .. } => {
                self.reject();
                true
            }
            Happening::Op(step) => self.operate(step),
            Happening::Moment { ms } => self.advance_clock(ms),
            Happening::Charged { seq, name, level } => {
                self.note(table, seq, name.as_slice(), Noted::Charged { level })
            }
            Happening::Drawn {
                seq,
                name,
                window,
                ticket,
            } => self.draw(table, seq, name.as_slice(), window, ticket),
            Happening::Counted { seq, name } => {
                self.note(table, seq, name.as_slice(), Noted::Counted)
            }
            Happening::Redacted { seq, name, version } => { self.clear(table, seq, &name, version) }
            Happening::Sent { seq, bytes } => self.send(table, seq, bytes),
            Happening::Refused { seq, cause } => self.refuse(table, seq, cause),
        }
    }

    // Adds an accepted call.
    fn accept(&mut self, call: AcceptedCall)
        requires may { (T : TheTable) × (past : Trace) × IsCheckerAfter T past self.old
            × MayTake (checker_context T self.old) past call }
        requires free { HasNoMalformed self.old.left }
        ensures knows { (T : TheTable) (past : Trace) → IsCheckerAfter T past self.old
            → CanFollow (checker_context T self.old) past (Took call)
            → IsCheckerAfter T (Took call ∷ past) self.new }
        ensures same { (T : TheTable) → checker_context T self.new ≡ checker_context T self.old }
    {
        ties_after_event();
        pending_after_event();
        forms_after_event();
        let AcceptedCall {
            seq,
            method,
            number,
            copy,
            ..
        } = call;
        self.taken = seq;
        match copy {
            TookCopy::Copy { tree } => {
                let call = Call {
                    conn: self.conn,
                    seq,
                    method,
                    number,
                    tree,
                };
                self.calls.push(Standing::new(call));
                self.reached.push_back_reserved(0);
            }
            TookCopy::Malformed { .. } => self.left = Obligation::RefuseMalformed { seq },
        }
    }

    // A submission was rejected: nothing changes.
    fn reject(&self)
        ensures { (T : TheTable) (past : Trace) (method number addr : ℕ) → IsCheckerAfter T past self.now
            → CanFollow (checker_context T self.now) past (Away method number addr)
            → IsCheckerAfter T (Away method number addr ∷ past) self.now }
    {
        ties_after_event();
    }

    // Advances the clock to a later timestamp.
    fn advance_clock(&mut self, now: u64) -> bool
        ensures rises { (T : TheTable) (past : Trace) → IsCheckerAfter T past self.old
            → OnTrue result (IsChainPreserved past (Moment now)) }
        ensures stays { (T : TheTable) (past : Trace) → IsCheckerAfter T past self.old
            → OnFalse result (IsChainPreserved past (Moment now) → ⊥) }
        ensures knows { (T : TheTable) (past : Trace) → IsCheckerAfter T past self.old
            → CanFollow (checker_context T self.old) past (Moment now)
            → OnTrue result (IsCheckerAfter T (Moment now ∷ past) self.new) }
        ensures same { (T : TheTable) → checker_context T self.new ≡ checker_context T self.old }
    {
        ties_after_event();
        if now <= self.moment {
            return false;
        }
        self.moment = now;
        clock_all(&mut self.engines, now);
        true
    }

    // ---- the end

    /// The first rule with an obligation; `None` if there is none.
    pub fn first_obligation(&self) -> Option<Rule>
        ensures settled { (T : TheTable) (past : Trace) → IsCheckerAfter T past self.now
            → IfNone result (HasNoObligation past) }
        ensures open { (T : TheTable) (past : Trace) → IsCheckerAfter T past self.now
            → IfSome result (λ rule. HasObligation past rule) }
    {
        match self.left {
            Obligation::RefuseMalformed { .. } => Some(Rule::B),
            Obligation::RefuseOverCap { .. } => Some(Rule::D),
            Obligation::Nothing if self.awaits_link() => Some(Rule::G),
            Obligation::Nothing => None,
        }
    }

    // Returns true if calls are pending on a failed link.
    fn awaits_link(&self) -> bool
        ensures awaits { (T : TheTable) (past : Trace) → IsCheckerAfter T past self.now
            → OnTrue result (HasLinkObligation past) }
        ensures none { (T : TheTable) (past : Trace) → IsCheckerAfter T past self.now
            → OnFalse result (HasLinkObligation past → ⊥) }
    {
        self.failed && self.first_pending().is_some()
    }
}

// The first rule that an event breaks; `None` if it breaks none. The flags say whether it keeps its own rule, refuses
// what was drawn, and respects a failed link.
pub(crate) fn first_broken_rule(own: Rule, kept: bool, drawn: bool, linked: bool) -> Option<Rule>
    ensures { result ≡ first_broken_rule own kept drawn linked }
{
    if !kept && own == Rule::C {
        Some(Rule::C)
    } else if !drawn {
        Some(Rule::D)
    } else if !kept {
        Some(own)
    } else if !linked {
        Some(Rule::G)
    } else {
        None
    }
}

// The rule of an event's own kind, apart from the numbering.
fn own_rule(what: &Happening) -> Rule
    ensures { result ≡ own_rule what.now }
{
    match what {
        Happening::Took(_) | Happening::Away { .. } => Rule::A,
        Happening::Op(_) | Happening::Moment { .. } => Rule::C,
        Happening::Charged { .. }
        | Happening::Drawn { .. }
        | Happening::Counted { .. }
        | Happening::Redacted { .. } => Rule::D,
        Happening::Sent { .. } => Rule::E,
        Happening::Refused { .. } => Rule::F,
    }
}
