//! The history of one connection.

ghost use Rattle.std.specs.Prelude.{◌≡◌, ◌↔◌, ◌+◌, ◌<◌, ◌≤◌, ◌++◌, ◌∷◌, [], IsTrue, Some, OnErr, OnOk, length, slice_get};
ghost use Rattle.call_history.specs.Records.{HasValidReferences, op_at, event_of_record};
ghost use Rattle.call_history.specs.declared.happening.Happening.TheVariants.{Op as Operated};

use crate::record::HistoryRecord;
use engine_core::Op;
use mrpc_table::Memory;
use std::alloc::Global;
use std::marker::Model;

/// The events of one connection, in order. Clauses see the events, the operations among them, and the spare
/// capacity.
pub struct History {
    steps: Vec<Op>,
    records: Vec<HistoryRecord>,
}

// By hand, so that each drop is one call, and not a drop of every field.
impl Drop for History {
    fn drop(self) {
        let History {
            steps: _steps,
            records: _records,
        } = self;
    }
}

impl Model for History {
    ghost use Rattle.std.specs.Prelude.{◌-◌, All, length, map, vec_capacity};
    ghost use Rattle.call_history.specs.Records.{StoredHistory, HasValidReferences, event_of_record};

    ghost Value = { StoredHistory };

    ghost use Rattle.std.specs.Coded.{codes};
    ghost use Rattle.mrpc_table.specs.contracts.tree.Tree as t;

    ghost coded = { Prim.hlevel (codes, t.the_row.coded) };

    ghost view = { λ h. record {
      steps = h.steps.items;
      happenings = map (event_of_record h.steps.items) h.records.items;
      room = vec_capacity h.records - length h.records.items;
      step_room = vec_capacity h.steps - length h.steps.items;
    } };

    ghost invariant = { λ h. All (HasValidReferences h.steps.items) h.records.items };
}

impl History {
    /// An empty history.
    pub fn new(alloc: Global) -> History
        ensures steps { result.steps ≡ [] }
        ensures happenings { result.happenings ≡ [] }
    {
        History {
            steps: Vec::new(alloc),
            records: Vec::new(alloc),
        }
    }

    /// Reserves capacity for at least `records` more records. The spare capacity never falls.
    pub fn reserve(&mut self, records: usize) -> Result<(), Memory>
        ensures room { OnOk result (records ≤ self.new.room) }
        ensures never_falls { self.old.room ≤ self.new.room }
        ensures step_room { self.new.step_room ≡ self.old.step_room }
        ensures steps { self.new.steps ≡ self.old.steps }
        ensures happenings { self.new.happenings ≡ self.old.happenings }
    {
        Ok(self.records.reserve(records)?)
    }

    /// Reserves capacity for one more operation. The capacity for records is unchanged.
    pub fn reserve_step(&mut self) -> Result<(), Memory>
        ensures step_room { OnOk result (1 ≤ self.new.step_room) }
        ensures room { self.new.room ≡ self.old.room }
        ensures steps { self.new.steps ≡ self.old.steps }
        ensures happenings { self.new.happenings ≡ self.old.happenings }
    {
        Ok(self.steps.reserve(1)?)
    }

    /// The number of operations.
    pub fn steps(&self) -> usize
        ensures { result ≡ length self.now.steps }
    {
        self.steps.len()
    }

    /// Appends an operation and its record. Both need reserved capacity; nothing is allocated.
    pub fn operate(&mut self, step: Op)
        requires room { 0 < self.old.room }
        requires step_room { 0 < self.old.step_room }
        ensures steps { self.new.steps ≡ self.old.steps ++ step ∷ [] }
        ensures happenings { self.new.happenings ≡ self.old.happenings ++ Operated step ∷ [] }
        ensures room { self.old.room ≤ self.new.room + 1 }
    {
        let place = self.steps.len();
        self.steps.push_reserved(step);
        self.records
            .push_reserved(HistoryRecord::Op { step: place });
    }

    /// Appends a record, which needs reserved capacity; nothing is allocated.
    pub fn push(&mut self, what: HistoryRecord)
        requires room { 0 < self.old.room }
        requires named { HasValidReferences self.old.steps what }
        ensures steps { self.new.steps ≡ self.old.steps }
        ensures happenings { self.new.happenings ≡ self.old.happenings ++ event_of_record self.old.steps what ∷ [] }
        ensures room { self.old.room ≤ self.new.room + 1 }
    {
        self.records.push_reserved(what);
    }

    /// The number of events.
    pub fn len(&self) -> usize
        ensures { result ≡ length self.now.happenings }
    {
        self.records.len()
    }

    /// Whether there are no events.
    pub fn is_empty(&self) -> bool
        ensures { IsTrue result ↔ (self.now.happenings ≡ []) }
    {
        self.records.is_empty()
    }

    /// The record of the event at an index, from 0. The operation and the rule that it names exist, so `step` and that
    /// operation's policy give the names of the event.
    pub fn at(&self, place: usize) -> &HistoryRecord
        requires { place < length self.now.happenings }
        ensures tells { slice_get self.now.happenings place ≡ Some (event_of_record self.now.steps result.now) }
        ensures named { HasValidReferences self.now.steps result.now }
    {
        &self.records[place]
    }

    /// The operation at an index, from 0.
    pub fn step(&self, place: usize) -> &Op
        requires { place < length self.now.steps }
        ensures { result.now ≡ op_at self.now.steps place }
    {
        &self.steps[place]
    }
}
