//! A table with a heap, and messages of its first type.

ghost use Rattle.std.specs.Prelude.{◌≡◌, ◌≤◌, ℕ};
ghost use Rattle.mrpc_table.specs.Normal.{IsNormal};
ghost use Rattle.graph_form.specs.Placed.{Placed as PlacedTree};
ghost use Rattle.graph_form.specs.Stored.{AreWordsOf};

use graph_copy::{CopyResult, copy, forget};
use graph_form::{Placed, size_words, slot_of};
use graph_place::{place, place_words};
use mrpc_base::{PlainWords, Room, Stores, Words};
use mrpc_table::{Bytes, MAX_LOADS, Table, Tree, fits};
use std::alloc::Global;
use std::marker::Model;
use std::process::Abort;
use table_text::read_table;
use wire_decode::decode;
use wire_encode::{encode, encoded_len};

// A table with a heap. What functions on both require is its invariant, or is checked at each call, so that
// no test has to know it. Contracts see the table.
pub(crate) struct Scene {
    table: Table,
    heap: PlainWords,
}

// Written by hand, so that a drop is one call, not a drop of each part.
impl Drop for Scene {
    fn drop(self) {
        let Scene {
            table: _table,
            heap: _heap,
        } = self;
    }
}

impl Model for Scene {
    ghost use Rattle.mrpc_table.specs.declared.table.Table.{Table as TheTable};
    ghost use Rattle.tests_calls.specs.Messages.{IsScene};

    ghost Value = { TheTable };

    ghost view = { λ s. s.table };

    ghost invariant = { λ s. IsScene s.table s.heap.size };
}

// A message that was placed: its encoding as read back, its words with their places, and its number of words.
#[derive(Drop)]
pub(crate) struct Placement {
    pub encoding: Bytes,
    pub placed: Placed,
    pub words: u64,
}

impl Scene {
    // The table of a text, which has a message, and 256 words.
    pub(crate) fn open(rt: &impl Abort, alloc: Global, text: &[u8]) -> Scene {
        let table = read_table(alloc, text).expect(rt, "a table");
        assert!(rt; !table.messages.is_empty());
        let heap = PlainWords::open(alloc, 256).expect(rt, "a heap");
        Scene { table, heap }
    }

    // The start of a field's slot in a node of the first message, if the message has the field.
    pub(crate) fn slot_of(&self, field: u32) -> Option<u64> {
        match self.table.field(0, field) {
            Some(_) => Some(slot_of(&self.table, 0, field)),
            None => None,
        }
    }

    // The number of words of a message without its content.
    pub(crate) fn size_words(&self) -> u64 {
        size_words(&self.table, 0)
    }

    // The message that the bytes mean.
    pub(crate) fn decode(&self, rt: &impl Abort, alloc: Global, bytes: &[u8]) -> Tree {
        decode(alloc, bytes, &self.table, 0).expect(rt, "a message")
    }

    // The tree is a message.
    fn check(&self, rt: &impl Abort, tree: &Tree)
        ensures { IsNormal self.now 0 tree.now }
    {
        assert!(rt; fits(tree, &self.table, 0));
    }

    // The length of the encoding of a message.
    pub(crate) fn encoded_len(&self, rt: &impl Abort, tree: &Tree) -> u64 {
        self.check(rt, tree);
        encoded_len(tree, &self.table, 0)
    }

    // The encoding of a message.
    pub(crate) fn encode(&self, rt: &impl Abort, alloc: Global, tree: &Tree) -> Bytes {
        self.check(rt, tree);
        encode(alloc, tree, &self.table, 0).expect(rt, "an encoding")
    }

    // The encoding of the copy of the message at a place.
    pub(crate) fn copied(&mut self, rt: &impl Abort, alloc: Global, at: u64) -> Bytes {
        let read = copy(alloc, &mut self.heap, &self.table, 0, at, MAX_LOADS);
        match read.expect(rt, "a copy") {
            CopyResult::Copied { tree, .. } => self.encode(rt, alloc, &tree),
            CopyResult::Malformed { .. } => panic!(rt; "no message"),
        }
    }

    // Places a message at one of the first places, if there is room for it.
    fn placed(&mut self, rt: &impl Abort, alloc: Global, tree: &Tree, at: u64) -> Placed
        requires from_one { 1 ≤ at }
        requires in_front { at ≤ 6 }
        requires normal { IsNormal self.old 0 tree.now }
        ensures table { self.new ≡ self.old }
        ensures sound { (H : ℕ) × (P : PlacedTree) × AreWordsOf self.new H 0 P result }
    {
        assert!(rt; place_words(tree, &self.table, 0) <= 250);
        assert!(rt; self.heap.made() < 1000);
        place(alloc, tree, &self.table, 0, at, &mut self.heap).expect(rt, "a place")
    }

    // The encoding of a placed message's tree.
    fn forgotten(&self, rt: &impl Abort, alloc: Global, placed: &Placed) -> Bytes
        requires { (H : ℕ) × (P : PlacedTree) × AreWordsOf self.now H 0 P placed.now }
    {
        let tree = forget(alloc, placed, &self.table, 0).expect(rt, "a message");
        self.encode(rt, alloc, &tree)
    }

    // Places a message at one of the first places.
    pub(crate) fn place(
        &mut self,
        rt: &impl Abort,
        alloc: Global,
        tree: &Tree,
        at: u64,
    ) -> Placement
        requires from_one { 1 ≤ at }
        requires in_front { at ≤ 6 }
    {
        self.check(rt, tree);
        let words = place_words(tree, &self.table, 0);
        let placed = self.placed(rt, alloc, tree, at);
        Placement {
            encoding: self.forgotten(rt, alloc, &placed),
            placed,
            words,
        }
    }

    // Places the message that the bytes mean at one of the first places.
    pub(crate) fn place_decoded(
        &mut self,
        rt: &impl Abort,
        alloc: Global,
        bytes: &[u8],
        at: u64,
    ) -> Placement
        requires from_one { 1 ≤ at }
        requires in_front { at ≤ 6 }
    {
        let tree = self.decode(rt, alloc, bytes);
        self.place(rt, alloc, &tree, at)
    }

    // The number of stores so far.
    pub(crate) fn stored(&self) -> usize {
        self.heap.made() as usize
    }

    // The number of loads so far.
    pub(crate) fn loaded(&self) -> usize {
        self.heap.loads_made() as usize
    }

    // Whether these words are at their places, by a load of each.
    pub(crate) fn holds(&mut self, rt: &impl Abort, words: &[(u64, u64)]) -> bool {
        for &(place, value) in words {
            assert!(rt; place < 256);
            assert!(rt; self.heap.room_loads(1) == Room::Made);
            if self.heap.load(place) != value {
                return false;
            }
        }
        true
    }
}
