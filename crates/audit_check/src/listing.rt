//! The pending calls at the end of a history.

ghost use Rattle.std.specs.Prelude.{◌≡◌, ◌++◌, ◌∷◌, ◌↔◌, ◌+◌, ℕ, List, [], IfNone, IfSome, IsSome, IsTrue, if◌then◌else◌, is_some, option_map};
ghost use Rattle.std.specs.BTreeMap.{btree_map_len};
ghost use Rattle.mrpc_table.specs.Valid.{IsValid};
ghost use Rattle.mrpc_table.specs.declared.table.Table.{Table};
ghost use Rattle.call_history.specs.Legal.{History, HasNoObligation, trace_of};
ghost use Rattle.audit_check.specs.Checking.{AreLegalPrefixes, AreAllListed, MayBeListed, StandsLine};
ghost use Rattle.audit_check.specs.States.{IsListing, IsAllListed, KnowsCurrent, KnowsEach, IsPopped, AreAscending, unlisted_connections, stands_line_of};

use audit_rules::{Checker, listing_can_start};
use audit_text::Holding;
use mrpc_table::{Name, Table};
use std::collections::BTreeMap;

// A pending call, as its line has it.
#[derive(Drop)]
pub(crate) struct PendingLine {
    pub conn: u32,
    pub seq: u32,
    pub position: u32,
    pub name: Name,
    pub holding: Option<Holding>,
}

// A connection with its checker.
#[derive(Drop)]
pub(crate) struct ConnectionChecker {
    pub conn: u32,
    pub checker: Checker,
}

// The connections with pending calls that aren't listed yet, in order.
#[derive(Drop)]
pub(crate) struct PendingListing {
    // The connection whose calls are being listed, if any.
    pub current: Option<ConnectionChecker>,
    // The connections after it.
    pub rest: BTreeMap<u32, Checker>,
}

impl PendingListing {
    // No call is listed yet.
    pub(crate) fn new(checkers: BTreeMap<u32, Checker>) -> PendingListing
        ensures { (T : Table) (limit : ℕ) (h : History) → KnowsEach T limit h checkers → AreLegalPrefixes T limit h
            → ((conn : ℕ) → HasNoObligation (trace_of conn h)) → IsListing T limit h [] result }
    {
        listing_can_start();
        let mut rest = checkers;
        let current = pop(&mut rest);
        PendingListing { current, rest }
    }

    // Moves to the first connection with unlisted calls, if there is one.
    fn at_next_unlisted(self) -> PendingListing
        ensures same { (T : Table) (limit : ℕ) (h : History) (told : List StandsLine) → IsListing T limit h told self
            → IsListing T limit h told result }
        ensures left { (T : Table) (limit : ℕ) (h : History) (told : List StandsLine) → IsListing T limit h told self
            → IsAllListed h told result.current → ⊥ }
    {
        let PendingListing {
            mut current,
            mut rest,
        } = self;
        while is_all_listed(&current) {
            current = pop(&mut rest);
        }
        PendingListing { current, rest }
    }

    // Lists the next pending call by its line; `None` exactly if the line isn't legal there.
    pub(crate) fn list_next(self, table: &Table, told: PendingLine) -> Option<PendingListing>
        requires valid { IsValid table.now }
        requires known { (limit : ℕ) × (h : History) × (before : List StandsLine)
            × IsListing table.now limit h before self }
        ensures tells { (limit : ℕ) (h : History) (before : List StandsLine) → IsListing table.now limit h before self
            → IfSome result (IsListing table.now limit h (before ++ stands_line_of told ∷ [])) }
        ensures not { (limit : ℕ) (h : History) (before : List StandsLine) → IsListing table.now limit h before self
            → IfNone result (MayBeListed table.now limit h (before ++ stands_line_of told ∷ []) → ⊥) }
    {
        let PendingListing { current, rest } = self.at_next_unlisted();
        let mut turn = current?;
        if turn.conn != told.conn
            || !turn.checker.check_stands(
                table,
                told.seq,
                told.position,
                told.name.as_slice(),
                held(told.holding),
            )
        {
            return None;
        }
        Some(PendingListing {
            current: Some(turn),
            rest,
        })
    }

    // Returns true if all pending calls are listed.
    pub(crate) fn has_listed_all(self) -> bool
        ensures { (T : Table) (limit : ℕ) (h : History) (told : List StandsLine) → IsListing T limit h told self
            → IsTrue result ↔ AreAllListed T limit h told }
    {
        self.at_next_unlisted().current.is_none()
    }
}

// Removes the first connection, if there is one.
fn pop(rest: &mut BTreeMap<u32, Checker>) -> Option<ConnectionChecker>
    ensures popped { IsPopped rest.old result rest.new }
    ensures rise { AreAscending (unlisted_connections result rest.new) }
    ensures len { btree_map_len rest.new + (if is_some result then 1 else 0) ≡ btree_map_len rest.old }
{
    let (conn, checker) = rest.pop_first()?;
    Some(ConnectionChecker { conn, checker })
}

// Returns true if there is a connection whose pending calls are all listed.
fn is_all_listed(current: &Option<ConnectionChecker>) -> bool
    ensures some { IsTrue result → IsSome current.now }
    ensures told { (T : Table) (limit : ℕ) (h : History) (told : List StandsLine)
        → KnowsCurrent T limit h told current.now → IsTrue result ↔ IsAllListed h told current.now }
{
    match current {
        Some(turn) => turn.checker.are_all_listed(),
        None => false,
    }
}

// The level and cost at which a call is held.
fn held(holding: Option<Holding>) -> Option<(u64, u64)>
    ensures { result ≡ option_map (λ held. (held.level, held.cost)) holding }
{
    holding.map(|holding| (holding.level, holding.cost))
}
