//! The checkers of all connections.

ghost use Rattle.std.specs.Prelude.{◌≡◌, ℕ, ◌+◌, ◌<◌, ◌≤◌, ◌^◌, ◌∷◌, ◌++◌, [], None, Some, IfNone, IfOk, IfSome, OnOk, length};
ghost use Rattle.std.specs.BTreeMap.{Updates, get};
ghost use Rattle.std.specs.Ordering.{nat_cmp};
ghost use Rattle.mrpc_table.specs.Valid.{IsValid};
ghost use Rattle.mrpc_table.specs.declared.table.Table.{Table};
ghost use Rattle.call_history.specs.Legal.{History, HasNoObligation, trace_of};
ghost use Rattle.call_history.specs.Rules.{CanFollow};
ghost use Rattle.audit_rules.specs.BrokenRules.{IsFirstBrokenRule, rule_rank};
ghost use Rattle.audit_rules.specs.CheckerState.{IsReadable};
ghost use Rattle.audit_check.specs.Checking.{IsFirstObligation, context_on};
ghost use Rattle.audit_text.specs.HappeningRefs.{event_of_ref, connection_event_of_ref};
ghost use Rattle.audit_check.specs.declared.connections.TheConstants.{NEAR};
ghost use Rattle.audit_check.specs.States.{IsEarlier, IsOfSomeHistory, KnowsAll, KnowsEach, checker_of};

use crate::happening_ref::{check_ref, connection_event_of_ref};
use audit_rules::{Checker, Rule};
use audit_text::HappenedRef;
use call_history::ConnectionEvent;
use mrpc_table::{Memory, Table};
use std::alloc::Global;
use std::collections::BTreeMap;

// Connections with a number below this have their checkers in a vector.
pub(crate) const NEAR: u32 = 17;

// The checkers of connections, under one limit of loads.
#[derive(Drop)]
pub(crate) struct Checkers {
    pub limit: u64,
    // The checkers of the lowest numbers, by number, with events or without.
    pub near: Vec<Checker>,
    // The checkers of the others, from their first event on.
    pub far: BTreeMap<u32, Checker>,
}

impl Checkers {
    // Makes the checkers of connections without events.
    pub(crate) fn new(alloc: Global, limit: u64) -> Result<Checkers, Memory>
        ensures knows { IfOk result (λ c. (T : Table) → KnowsAll T [] c) }
        ensures limit { IfOk result (λ c. c.limit ≡ limit) }
    {
        let mut near = Vec::new(alloc);
        for conn in 0..NEAR {
            let checker = Checker::open(alloc, conn, limit)?;
            near.push(checker)?;
        }
        let far = BTreeMap::new(alloc);
        Ok(Checkers { limit, near, far })
    }

    // Checks the next event on its connection. Returns the first rule that it breaks; `None` if it breaks none.
    // `Memory` comes only if the event is the first of its connection, and its checker couldn't be allocated.
    pub(crate) fn check(
        &mut self,
        alloc: Global,
        table: &Table,
        next: ConnectionEvent,
    ) -> Result<Option<Rule>, Memory>
        requires valid { IsValid table.now }
        requires known { IsOfSomeHistory table.now self.old }
        requires readable { IsReadable table.now next.what }
        ensures may { (h : History) → KnowsAll table.now h self.old → IfOk result (λ r. IfNone r
            (CanFollow (context_on table.now self.old.limit next.conn) (trace_of next.conn h) next.what)) }
        ensures knows { (h : History) → KnowsAll table.now h self.old
            → IfOk result (λ r. IfNone r (KnowsAll table.now (h ++ next ∷ []) self.new)) }
        ensures breaks { (h : History) → KnowsAll table.now h self.old → IfOk result (λ r. IfSome r
            (IsFirstBrokenRule (context_on table.now self.old.limit next.conn) (trace_of next.conn h) next.what)) }
        ensures limit { self.new.limit ≡ self.old.limit }
    {
        let place = next.conn as usize;
        if place < self.near.len() {
            return Ok(self.near[place].check(table, next.what));
        }
        self.check_far(alloc, table, next)
    }

    // Like `check`, for a note or a send as its line has it.
    pub(crate) fn check_ref(
        &mut self,
        alloc: Global,
        table: &Table,
        next: HappenedRef<'_>,
    ) -> Result<Option<Rule>, Memory>
        requires valid { IsValid table.now }
        requires known { IsOfSomeHistory table.now self.old }
        ensures may { (h : History) → KnowsAll table.now h self.old → IfOk result (λ r. IfNone r
            (CanFollow (context_on table.now self.old.limit next.entry.conn) (trace_of next.entry.conn h)
            (event_of_ref next.entry.what))) }
        ensures knows { (h : History) → KnowsAll table.now h self.old
            → IfOk result (λ r. IfNone r (KnowsAll table.now (h ++ connection_event_of_ref next.entry ∷ []) self.new)) }
        ensures breaks { (h : History) → KnowsAll table.now h self.old → IfOk result (λ r. IfSome r
            (IsFirstBrokenRule (context_on table.now self.old.limit next.entry.conn) (trace_of next.entry.conn h)
            (event_of_ref next.entry.what))) }
        ensures limit { self.new.limit ≡ self.old.limit }
    {
        let place = next.conn as usize;
        if place < self.near.len() {
            return Ok(check_ref(&mut self.near[place], table, next.what));
        }
        let next = connection_event_of_ref(alloc, next)?;
        self.check_far(alloc, table, next)
    }

    // Like `check`, for a connection without a slot in the vector. (It is rare, and kept out of line, so that its
    // values don't slow the other checks.)
    #[inline(never)]
    fn check_far(
        &mut self,
        alloc: Global,
        table: &Table,
        next: ConnectionEvent,
    ) -> Result<Option<Rule>, Memory>
        requires valid { IsValid table.now }
        requires known { IsOfSomeHistory table.now self.old }
        requires readable { IsReadable table.now next.what }
        requires far { length self.old.near.items ≤ next.conn }
        ensures may { (h : History) → KnowsAll table.now h self.old → IfOk result (λ r. IfNone r
            (CanFollow (context_on table.now self.old.limit next.conn) (trace_of next.conn h) next.what)) }
        ensures knows { (h : History) → KnowsAll table.now h self.old
            → IfOk result (λ r. IfNone r (KnowsAll table.now (h ++ next ∷ []) self.new)) }
        ensures breaks { (h : History) → KnowsAll table.now h self.old → IfOk result (λ r. IfSome r
            (IsFirstBrokenRule (context_on table.now self.old.limit next.conn) (trace_of next.conn h) next.what)) }
        ensures limit { self.new.limit ≡ self.old.limit }
    {
        match self.far.get_mut(&next.conn) {
            Some(checker) => Ok(checker.check(table, next.what)),
            None => self.check_first(alloc, table, next),
        }
    }

    // Like `check_far`, for the first event of a connection.
    #[inline(never)]
    fn check_first(
        &mut self,
        alloc: Global,
        table: &Table,
        next: ConnectionEvent,
    ) -> Result<Option<Rule>, Memory>
        requires valid { IsValid table.now }
        requires readable { IsReadable table.now next.what }
        requires far { length self.old.near.items ≤ next.conn }
        requires first { get nat_cmp self.old.far next.conn ≡ None }
        ensures may { (h : History) → KnowsAll table.now h self.old → IfOk result (λ r. IfNone r
            (CanFollow (context_on table.now self.old.limit next.conn) (trace_of next.conn h) next.what)) }
        ensures knows { (h : History) → KnowsAll table.now h self.old
            → IfOk result (λ r. IfNone r (KnowsAll table.now (h ++ next ∷ []) self.new)) }
        ensures breaks { (h : History) → KnowsAll table.now h self.old → IfOk result (λ r. IfSome r
            (IsFirstBrokenRule (context_on table.now self.old.limit next.conn) (trace_of next.conn h) next.what)) }
        ensures limit { self.new.limit ≡ self.old.limit }
    {
        let ConnectionEvent { conn, what } = next;
        let mut checker = Checker::open(alloc, conn, self.limit)?;
        let rule = checker.check(table, what);
        let _ = self.far.insert(conn, checker)?;
        Ok(rule)
    }

    // Returns all checkers, by the numbers of their connections.
    pub(crate) fn gather(self) -> Result<BTreeMap<u32, Checker>, Memory>
        requires { length self.near.items ≤ NEAR }
        ensures { IfOk result (λ all. (conn : ℕ) → get nat_cmp all conn ≡ checker_of self conn) }
    {
        let Checkers {
            mut near,
            far: mut all,
            ..
        } = self;
        while let Some(checker) = near.pop() {
            put(&mut all, near.len() as u32, checker)?;
        }
        Ok(all)
    }
}

// Inserts the checker of a connection into a map.
fn put(all: &mut BTreeMap<u32, Checker>, conn: u32, checker: Checker) -> Result<(), Memory>
    ensures { OnOk result (Updates nat_cmp all.old all.new conn (Some checker)) }
{
    let _ = all.insert(conn, checker)?;
    Ok(())
}

// The first of the rules with an obligation on any connection; `None` if there is none.
#[inline(never)]
pub(crate) fn first_obligation(checkers: &BTreeMap<u32, Checker>) -> Option<Rule>
    ensures settled { (T : Table) (limit : ℕ) (h : History) → KnowsEach T limit h checkers.now
        → IfNone result ((conn : ℕ) → HasNoObligation (trace_of conn h)) }
    ensures open { (T : Table) (limit : ℕ) (h : History) → KnowsEach T limit h checkers.now
        → IfSome result (IsFirstObligation h) }
{
    let mut first = None;
    for (_, checker) in checkers {
        first = earlier(first, checker.first_obligation());
    }
    first
}

// The earlier of two rules with obligations; `None` if there is none.
fn earlier(one: Option<Rule>, other: Option<Rule>) -> Option<Rule>
    ensures { IsEarlier one other result }
{
    let Some(rule) = one else {
        return other;
    };
    match other {
        Some(second) if order_of(second) < order_of(rule) => other,
        _ => one,
    }
}

// The rank of a rule.
fn order_of(rule: Rule) -> u8
    ensures { result ≡ rule_rank rule }
{
    match rule {
        Rule::A => 0,
        Rule::B => 1,
        Rule::C => 2,
        Rule::D => 3,
        Rule::E => 4,
        Rule::F => 5,
        Rule::G => 6,
        Rule::Stands => 7,
    }
}
