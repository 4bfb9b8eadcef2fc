//! The knowledge of each seat of a heap's table, and what its accesses reveal. No value of these types but the table
//! is ever made.

use atomic_table::{Join, Play, Split, TableRule};
use std::alloc::Global;
use std::collections::LinkedList;

/// A load as contracts see it: its place, its value, and the number of stores known to precede it.
pub struct Load {
    pub place: u64,
    pub value: u64,
    pub after: u64,
}

// The knowledge of one seat.
pub(crate) struct HeapView {
    // The first stores: those that the seat has seen, and those that a note brought.
    pub known: LinkedList<(u64, u64)>,
    pub told: LinkedList<(u64, u64)>,
    // Whether it may store. Then it knows all stores so far, and no other seat may store.
    pub writes: bool,
    // Whether no more stores will follow those that it has seen, and those that a note brought.
    pub last: bool,
    pub note_is_last: bool,
    pub loads: LinkedList<Load>,
}

pub(crate) struct Rule;

// Its key is the number of words.
impl TableRule<(), HeapView, u64> for Rule {
    ghost use Rattle.std.specs.Prelude.{[]};
    ghost use Rattle.shared_heap.specs.Rule.{IsHeap, writer_view};

    ghost holds = { IsHeap };

    ghost first = { λ _. writer_view [] };
}

// The writer's store.
pub(crate) struct Store;

impl Play<(), HeapView> for Store {
    ghost use Rattle.shared_heap.specs.Rule.{IsStoreStep};

    ghost then = { IsStoreStep };
}

// The reader's load.
pub(crate) struct LoadOne;

impl Play<(), HeapView> for LoadOne {
    ghost use Rattle.shared_heap.specs.Rule.{IsLoadStep};

    ghost then = { IsLoadStep };
}

// A load that merges the stores that a note brought.
pub(crate) struct Settle;

impl Play<(), HeapView> for Settle {
    ghost use Rattle.shared_heap.specs.Rule.{IsSettleStep};

    ghost then = { IsSettleStep };
}

// A new seat with the knowledge of this one.
pub(crate) struct Knowing;

impl Split<HeapView> for Knowing {
    ghost use Rattle.shared_heap.specs.Rule.{knowing_view};

    ghost left = { λ v. v };

    ghost right = { knowing_view };
}

// A new seat with the knowledge of this one; afterwards nobody stores any more.
pub(crate) struct Ending;

impl Split<HeapView> for Ending {
    ghost use Rattle.shared_heap.specs.Rule.{ended};

    ghost left = { ended };

    ghost right = { ended };
}

impl Join<HeapView> for Knowing {
    ghost use Rattle.shared_heap.specs.Rule.{informed, empty_view};

    ghost both = { informed };

    ghost spent = { empty_view };
}

pub(crate) type Table = atomic_table::Table<(), HeapView, u64, Rule, Global>;
