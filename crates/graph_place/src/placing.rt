//! Places a message into a heap: first all its words are laid out, then they are stored.

ghost use Rattle.std.specs.Prelude.{◌≡◌, ◌≤◌, ◌<◌, ◌+◌, ◌^◌, ◌++◌, ℕ, length, All, IfOk, OnErr};
ghost use Rattle.mrpc_base.specs.Heap.{word_after};
ghost use Rattle.mrpc_table.specs.Node.{Node};
ghost use Rattle.mrpc_table.specs.Normal.{IsNormal};
ghost use Rattle.mrpc_table.specs.Valid.{IsValid};
ghost use Rattle.mrpc_table.specs.declared.table.Table.{Table as TheTable};
ghost use Rattle.graph_place.specs.Size.{tree_words};
ghost use Rattle.graph_place.specs.Stored.{IsPlacedIn};

use crate::builder::Builder;
use crate::laws::stored_words_are_found;
use crate::size::place_words;
use graph_form::{Loads, Placed};
use mrpc_base::{Room, Stores};
use mrpc_table::{Memory, Table, Tree};
use std::alloc::Global;

/// Stores a normal tree of the message at index `msg` of the table into a heap. It uses the places from `at`, as many
/// as [`place_words`] returns. It stores exactly the words that a copy from `at` loads, in that order, and returns
/// them.
///
/// The only error is `Memory`, and it comes before the first store.
pub fn place<H: Stores>(
    alloc: Global,
    tree: &Tree,
    table: &Table,
    msg: u32,
    at: u64,
    heap: &mut H,
) -> Result<Placed, Memory>
    requires valid { IsValid table.now }
    requires known { msg < length table.now.messages }
    requires normal { IsNormal table.now msg tree.now }
    requires from_one { 1 ≤ at }
    requires in_heap { at + tree_words table.now msg tree.now ≤ H.words heap.old }
    requires few { length (H.stores heap.old) + tree_words table.now msg tree.now ≤ 2 ^ 63 }

    // The message lies in these words, and they are what is stored.
    ensures stands { IfOk result (IsPlacedIn table.now (H.words heap.old) msg tree.now at
        (tree_words table.now msg tree.now)) }
    ensures stores { IfOk result (λ placed. H.stores heap.new ≡ H.stores heap.old ++ placed.words) }

    ensures memory { OnErr result (H.stores heap.new ≡ H.stores heap.old) }
    ensures size { H.words heap.new ≡ H.words heap.old }
    ensures same_heap { (first : H) → H.since first heap.old → H.since first heap.new }
{
    // A heap's size is a u64, so each of these places is one.
    let _size = heap.size();
    let placed = layout(alloc, tree, table, msg, at)?;
    match heap.room_stores(placed.words.len() as u64) {
        Room::Memory => Err(Memory),
        Room::Made => {
            store(heap, &placed);
            Ok(placed)
        }
    }
}

/// Lays out a normal tree of the message at index `msg` of the table: its words, each with its place, from the place
/// `at`. There are at most [`place_words`] of them. Nothing is stored: [`store`] does that, and allocates nothing.
///
/// The only error is `Memory`.
pub fn layout(
    alloc: Global,
    tree: &Tree,
    table: &Table,
    msg: u32,
    at: u64,
) -> Result<Placed, Memory>
    requires valid { IsValid table.now }
    requires known { msg < length table.now.messages }
    requires normal { IsNormal table.now msg tree.now }
    requires from_one { 1 ≤ at }
    requires in_range { at + tree_words table.now msg tree.now < 2 ^ 64 }

    // In each heap that has these places, the message lies in these words.
    ensures stands { IfOk result (λ placed. (words : ℕ) → at + tree_words table.now msg tree.now ≤ words
        → IsPlacedIn table.now words msg tree.now at (tree_words table.now msg tree.now) placed) }
{
    let room = place_words(tree, table, msg);
    let mut builder = Builder::new(alloc, at, room)?;
    builder.node(table, msg, tree)?;
    Ok(Placed {
        address: at,
        words: Loads::from_vec(builder.words),
    })
}

/// Stores exactly the words of a message that is laid out, in their order. It allocates nothing.
pub fn store<H: Stores>(heap: &mut H, placed: &Placed)
    requires in_heap { All (λ word. (1 ≤ word.0) × (word.0 < H.words heap.old)) placed.now.words }
    requires few { length (H.stores heap.old) + length placed.now.words ≤ 2 ^ 63 }
    requires room { length placed.now.words ≤ H.room heap.old }
    ensures stores { H.stores heap.new ≡ H.stores heap.old ++ placed.now.words }
    // If a message lies in the words, each of their places holds its word.
    ensures found { (T : TheTable) (msg at span : ℕ) (tree : Node)
        → IsPlacedIn T (H.words heap.old) msg tree at span placed.now
        → All (λ word. word_after (H.stores heap.new) word.0 ≡ word.1) placed.now.words }
    ensures size { H.words heap.new ≡ H.words heap.old }
    ensures same_heap { (first : H) → H.since first heap.old → H.since first heap.new }
{
    stored_words_are_found();
    let words = placed.words.as_slice();
    for word in words {
        heap.store(word.0, word.1);
    }
}
