//! The judgement of the lines so far.

ghost use Rattle.std.specs.Prelude.{◌≡◌, ◌+◌, ◌<◌, ◌≤◌, ◌^◌, ◌∷◌, ◌++◌, ℕ, List, [], IfOk, MatchResult, OnOk, length};
ghost use Rattle.mrpc_table.specs.Valid.{IsValid};
ghost use Rattle.mrpc_table.specs.declared.table.Table.{Table};
ghost use Rattle.call_history.specs.Legal.{History, IsLegal};
ghost use Rattle.audit_text.specs.HappeningRefs.{connection_event_of_ref};
ghost use Rattle.audit_rules.specs.CheckerState.{IsReadable};
ghost use Rattle.audit_check.specs.Checking.{IsCheckOfHistory, StandsLine};
ghost use Rattle.audit_check.specs.Stages.{IsEventStage, IsIllegalAt, IsStage};
ghost use Rattle.audit_check.specs.declared.connections.TheConstants.{NEAR};
ghost use Rattle.audit_check.specs.declared.stage.Stage.TheVariants as stages;
ghost use Rattle.audit_check.specs.States.{IsListing, stands_line_of};

use crate::checked::Checked;
use crate::connections::{Checkers, first_obligation};
use crate::listing::{PendingLine, PendingListing};
use audit_rules::Rule;
use audit_text::HappenedRef;
use call_history::ConnectionEvent;
use mrpc_table::{Memory, Table};
use std::alloc::Global;
use std::mem::replace;

// How the lines so far are judged.
#[derive(Drop)]
pub(crate) enum Stage {
    // All events are legal so far, and no line of a pending call was read.
    Events(Checkers),
    // The history is legal, and the lines after it can be the first ones of its pending calls.
    Listing(PendingListing),
    // The lines are illegal.
    Illegal(Illegal),
}

// The first line, counted from 1, that makes a text illegal, and the first rule that is broken there.
#[derive(Clone, Copy)]
pub(crate) struct Illegal {
    pub line: u64,
    pub rule: Rule,
}

impl Stage {
    // Applies an event, on a line. The checkers are updated in place.
    pub(crate) fn apply_event(
        &mut self,
        alloc: Global,
        table: &Table,
        next: ConnectionEvent,
        line: u64,
    ) -> Result<(), Memory>
        requires valid { IsValid table.now }
        requires readable { IsReadable table.now next.what }
        requires known { (limit : ℕ) × (h : History) × IsStage table.now limit h [] self.old
            × (line ≡ length h + 1) × (line + 2 < 2 ^ 32) }
        ensures { (limit : ℕ) (h : History) → IsStage table.now limit h [] self.old → line ≡ length h + 1
            → OnOk result (IsStage table.now limit (h ++ next ∷ []) [] self.new) }
    {
        match self {
            Stage::Events(connections) => match connections.check(alloc, table, next)? {
                None => Ok(()),
                Some(rule) => {
                    self.break_at(Illegal { line, rule });
                    Ok(())
                }
            },
            Stage::Listing(_) | Stage::Illegal(_) => Ok(()),
        }
    }

    // Like `happen`, for a note or a send as its line has it.
    pub(crate) fn apply_call_event(
        &mut self,
        alloc: Global,
        table: &Table,
        next: HappenedRef<'_>,
        line: u64,
    ) -> Result<(), Memory>
        requires valid { IsValid table.now }
        requires known { (limit : ℕ) × (h : History) × IsStage table.now limit h [] self.old
            × (line ≡ length h + 1) × (line + 2 < 2 ^ 32) }
        ensures { (limit : ℕ) (h : History) → IsStage table.now limit h [] self.old → line ≡ length h + 1
            → OnOk result (IsStage table.now limit (h ++ connection_event_of_ref next.entry ∷ []) [] self.new) }
    {
        match self {
            Stage::Events(connections) => match connections.check_ref(alloc, table, next)? {
                None => Ok(()),
                Some(rule) => {
                    self.break_at(Illegal { line, rule });
                    Ok(())
                }
            },
            Stage::Listing(_) | Stage::Illegal(_) => Ok(()),
        }
    }

    // Makes the lines illegal from a line on.
    #[inline(never)]
    fn break_at(&mut self, illegal: Illegal)
        ensures { self.new ≡ stages.Illegal illegal }
    {
        *self = Stage::Illegal(illegal);
    }

    // No events follow, from this line on.
    fn listing(self, line: u64) -> Result<Result<PendingListing, Illegal>, Memory>
        requires known { (T : Table) × (limit : ℕ) × (h : History) × (told : List StandsLine)
            × IsStage T limit h told self }
        ensures { (T : Table) (limit : ℕ) (h : History) (told : List StandsLine) → IsStage T limit h told self
            → (told ≡ [] → line ≡ length h + 1) → IfOk result (λ r. MatchResult r
            (λ row. IsLegal T limit h × IsListing T limit h told row) (IsIllegalAt T limit h told)) }
    {
        match self {
            Stage::Events(connections) => first_listing(connections, line),
            Stage::Listing(row) => Ok(Ok(row)),
            Stage::Illegal(illegal) => Ok(Err(illegal)),
        }
    }

    // Applies the line of a pending call. During the call the stage counts as illegal, so that an error leaves a
    // defined state.
    #[inline(never)]
    pub(crate) fn apply_pending_line(
        &mut self,
        table: &Table,
        told: PendingLine,
        line: u64,
    ) -> Result<(), Memory>
        requires valid { IsValid table.now }
        requires known { (limit : ℕ) × (h : History) × (before : List StandsLine)
            × IsStage table.now limit h before self.old × (line ≡ length h + length before + 1) }
        ensures { (limit : ℕ) (h : History) (before : List StandsLine) → IsStage table.now limit h before self.old
            → line ≡ length h + length before + 1
            → OnOk result (IsStage table.now limit h (before ++ stands_line_of told ∷ []) self.new) }
    {
        let rule = Rule::Stands;
        let stage = replace(self, Stage::Illegal(Illegal { line, rule }));
        *self = stage.list_next(table, told, line)?;
        Ok(())
    }

    // The judgement after one more line, of a pending call.
    fn list_next(self, table: &Table, told: PendingLine, line: u64) -> Result<Stage, Memory>
        requires valid { IsValid table.now }
        requires known { (limit : ℕ) × (h : History) × (before : List StandsLine)
            × IsStage table.now limit h before self × (line ≡ length h + length before + 1) }
        ensures { (limit : ℕ) (h : History) (before : List StandsLine) → IsStage table.now limit h before self
            → line ≡ length h + length before + 1
            → IfOk result (IsStage table.now limit h (before ++ stands_line_of told ∷ [])) }
    {
        match self.listing(line)? {
            Ok(row) => match row.list_next(table, told) {
                Some(row) => Ok(Stage::Listing(row)),
                None => Ok(Stage::Illegal(Illegal {
                    line,
                    rule: Rule::Stands,
                })),
            },
            Err(illegal) => Ok(Stage::Illegal(illegal)),
        }
    }

    // The result of a text that ends after this many events and lines of pending calls.
    pub(crate) fn end(self, happenings: u64, stands: u64) -> Result<Checked, Memory>
        requires few { happenings + stands + 1 < 2 ^ 64 }
        requires known { (T : Table) × (limit : ℕ) × (h : History) × (told : List StandsLine)
            × IsStage T limit h told self }
        ensures { (T : Table) (limit : ℕ) (h : History) (told : List StandsLine) → IsStage T limit h told self
            → happenings ≡ length h → stands ≡ length told → IfOk result (IsCheckOfHistory T limit h told) }
    {
        let line = happenings + stands + 1;
        match self.listing(line)? {
            Ok(row) => Ok(legal_result(row, happenings, stands)),
            Err(Illegal { line, rule }) => Ok(Checked::Illegal { line, rule }),
        }
    }
}

// The pending calls, if all events are legal and there is no obligation.
fn first_listing(
    connections: Checkers,
    line: u64,
) -> Result<Result<PendingListing, Illegal>, Memory>
    requires { length connections.near.items ≤ NEAR }
    ensures { (T : Table) (limit : ℕ) (h : History) (told : List StandsLine) → IsEventStage T limit h told connections
        → (told ≡ [] → line ≡ length h + 1) → IfOk result (λ r. MatchResult r
        (λ row. IsLegal T limit h × IsListing T limit h told row) (IsIllegalAt T limit h told)) }
{
    let checkers = connections.gather()?;
    match first_obligation(&checkers) {
        None => Ok(Ok(PendingListing::new(checkers))),
        Some(rule) => Ok(Err(Illegal { line, rule })),
    }
}

// The result of a legal history with this many lines of pending calls after it.
fn legal_result(row: PendingListing, happenings: u64, stands: u64) -> Checked
    requires { happenings + stands + 1 < 2 ^ 64 }
    ensures { (T : Table) (limit : ℕ) (h : History) (told : List StandsLine) → IsLegal T limit h
        → IsListing T limit h told row → happenings ≡ length h → stands ≡ length told
        → IsCheckOfHistory T limit h told result }
{
    if row.has_listed_all() || stands == 0 {
        Checked::Legal { happenings, stands }
    } else {
        Checked::Illegal {
            line: happenings + stands + 1,
            rule: Rule::Stands,
        }
    }
}
