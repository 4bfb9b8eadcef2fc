//! The pool of vectors from trees that are no longer needed.

ghost use Rattle.std.specs.Prelude.{◌≡◌, ℕ, [], IfSome};
ghost use Rattle.wire_decode.specs.TreePool.{IsBounded, AreWithinLimits, empty_pool, capacities};

use mrpc_table::{Bytes, Entries, FieldValue, Numbered, Tree, Value, Values};
use std::alloc::Global;
use std::marker::Model;

// The most vectors of each kind that are kept.
const MAX_KEPT: usize = 512;

// The most capacity of a kept vector of fields, elements or entries, in items.
const MAX_ROOM: usize = 256;

// The most capacity of a kept run, in bytes.
const MAX_RUN_ROOM: usize = 4096;

/// A free list of vectors from trees that are no longer needed, which later trees reuse. The decoded trees don't depend
/// on it. Contracts see the capacity of each vector.
///
/// At most 512 vectors of each kind are kept. The vectors of a message's fields, a list's elements and a map's entries
/// have a capacity of at most 256, and those of a run's bytes of at most 4,096. So no more than about 20 MiB are held,
/// whatever trees are taken back.
#[derive(Drop)]
pub struct TreePool {
    fields: Vec<Numbered>,
    lists: Vec<Values>,
    entries: Vec<Entries>,
    runs: Vec<Vec<u8>>,
}

impl Model for TreePool {
    ghost use Rattle.wire_decode.specs.TreePool.{PoolState, IsBounded, pool_of};

    ghost Value = { PoolState };

    ghost view = { λ s. pool_of s.fields.items s.lists.items s.entries.items s.runs.items };

    ghost invariant = { λ s. IsBounded (pool_of s.fields.items s.lists.items s.entries.items s.runs.items) };
}

impl TreePool {
    /// An empty pool. It allocates nothing.
    pub fn new(alloc: Global) -> TreePool
        ensures { result ≡ empty_pool }
    {
        TreePool {
            fields: Vec::new(alloc),
            lists: Vec::new(alloc),
            entries: Vec::new(alloc),
            runs: Vec::new(alloc),
        }
    }

    /// Recycles a tree that is no longer needed. It keeps the vectors of its fields, lists and maps, emptied, and those
    /// of the messages in it. It also keeps those of its runs, whose bytes stay until they are reused. A vector above
    /// the limits is dropped, and so is one that can't be kept because it is out of memory. Takes time linear in the
    /// parts of the tree.
    #[cycle(recycle)]
    pub fn recycle(&mut self, tree: Tree)
        ensures { IsBounded self.new }
    {
        let mut fields = tree.fields;
        while let Some((_, content)) = fields.pop() {
            self.recycle_content(content);
        }
        keep(&mut self.fields, fields, MAX_ROOM);
    }

    #[cycle(recycle)]
    fn recycle_content(&mut self, content: FieldValue) {
        match content {
            FieldValue::One(value) => self.recycle_value(value),
            FieldValue::Many(values) => self.recycle_list(values),
            FieldValue::Pairs(entries) => self.recycle_entries(entries),
        }
    }

    #[cycle(recycle)]
    fn recycle_list(&mut self, mut values: Values) {
        while let Some(value) = values.pop() {
            self.recycle_value(value);
        }
        keep(&mut self.lists, values, MAX_ROOM);
    }

    #[cycle(recycle)]
    fn recycle_entries(&mut self, mut entries: Entries) {
        while let Some((key, value)) = entries.pop() {
            self.recycle_value(key);
            self.recycle_value(value);
        }
        keep(&mut self.entries, entries, MAX_ROOM);
    }

    #[cycle(recycle)]
    fn recycle_value(&mut self, value: Value) {
        match value {
            Value::Number(_) => {}
            Value::Run(run) => keep(&mut self.runs, run.into_vec(), MAX_RUN_ROOM),
            Value::Node(tree) => self.recycle(tree),
        }
    }

    /// An empty vector for the fields of a message: a new one with capacity for `most` fields, or a kept one, which
    /// grows as needed.
    pub fn fields(&mut self, alloc: Global, most: usize) -> Option<Numbered>
        ensures { IfSome result (λ fields. fields.items ≡ []) }
    {
        let mut fields = empty(alloc, &mut self.fields);
        if fields.capacity() == 0 {
            fields.reserve_exact(most).ok()?;
        }
        Some(fields)
    }

    /// An empty vector for the elements of a list.
    pub fn list(&mut self, alloc: Global) -> Values
        ensures { result.items ≡ [] }
    {
        empty(alloc, &mut self.lists)
    }

    /// An empty vector for the entries of a map.
    pub fn entries(&mut self, alloc: Global) -> Entries
        ensures { result.items ≡ [] }
    {
        empty(alloc, &mut self.entries)
    }

    /// The bytes of a slice, in a kept or new run.
    pub fn run(&mut self, alloc: Global, bytes: &[u8]) -> Option<Bytes>
        ensures { IfSome result (λ s. s ≡ bytes.now) }
    {
        let mut run = empty(alloc, &mut self.runs);
        run.extend_from_slice(bytes).ok()?;
        Some(Bytes::from_vec(run))
    }
}

// Keeps a vector, unless there are enough of them or its capacity is above `most`.
fn keep<T: Drop>(kept: &mut Vec<Vec<T>>, vector: Vec<T>, most: usize)
    requires { AreWithinLimits (capacities kept.old.items) most }
    ensures { AreWithinLimits (capacities kept.new.items) most }
{
    if kept.len() < MAX_KEPT && vector.capacity() <= most {
        let _ = kept.push(vector);
    }
}

// The vector that was kept last, emptied, or a new one.
fn empty<T: Drop>(alloc: Global, kept: &mut Vec<Vec<T>>) -> Vec<T>
    ensures value { result.items ≡ [] }
    ensures few { (most : ℕ) → AreWithinLimits (capacities kept.old.items) most → AreWithinLimits (capacities kept.new.items) most }
{
    match kept.pop() {
        Some(mut vector) => {
            vector.clear();
            vector
        }
        None => Vec::new(alloc),
    }
}
