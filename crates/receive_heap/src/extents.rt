//! Held blocks and holes.

ghost use Rattle.std.specs.Prelude.{◌≡◌, ◌≢◌, ◌<◌, ◌≤◌, ◌+◌, ◌-◌, ◌^◌, ◌↔◌, ◌++◌, ◌∷◌, [], ℕ, All, Some, IfSome, IfNone, IfOk, OnOk, IfErr, OnErr, IsErr};
ghost use Rattle.mrpc_table.specs.declared.limits.TheConstants.{MAX_HEAP, MIN_HEAP};
ghost use Rattle.receive_heap.specs.Layout.{IsPartitioned, IsFirstFit, IsLargest, IsNoHole, HasLargest, IsWithout};

use crate::PlaceRange;
use crate::holes::{first_fit, free, largest, shrink_hole};
use mrpc_table::Memory;
use std::alloc::{AllocError, AllocFailed, Global};
use std::collections::BTreeMap;
use std::marker::Model;
use thiserror::Error;

/// A block of words that is held.
#[derive(Clone, Copy, PartialEq, Eq)]
pub struct Block {
    /// Its number: the first block that is allocated has 1, and each later one the next.
    pub number: u64,
    /// Its first place.
    pub at: u64,
    /// Its size in words.
    pub words: u64,
}

/// Why no block is allocated.
#[derive(Clone, Copy, Debug, PartialEq, Eq, Error)]
pub enum TakeFault {
    /// No hole is large enough.
    #[error("no hole has {need} words, the largest has {largest}")]
    NoHole {
        /// The requested words.
        need: u64,
        /// The words of the largest hole, 0 if there is none.
        largest: u64,
    },
    /// Out of memory.
    #[error("out of memory")]
    Memory,
}

/// No held block has this number.
#[derive(Clone, Copy, Debug, PartialEq, Eq, Error)]
#[error("no held block has the number {number}")]
pub struct NotHeld {
    /// The requested number.
    pub number: u64,
}

/// The places of a heap, as held blocks and holes. Contracts see it as a `Layout` of `specs/Layout.antt`.
#[derive(Drop)]
pub struct Extents {
    words: u64,
    // By place. There is capacity for one more for each held block.
    holes: Vec<PlaceRange>,
    // By number.
    held: BTreeMap<u64, Block>,
    next: u64,
}

impl Model for Extents {
    ghost use Rattle.std.specs.Prelude.{vec_len};
    ghost use Rattle.std.specs.Vec.{vec_capacity};
    ghost use Rattle.std.specs.Map.{values_of};
    ghost use Rattle.receive_heap.specs.Layout.{Layout};
    ghost use Rattle.receive_heap.specs.Parts.{HasLayoutInvariant};

    ghost Value = { Layout };

    ghost view = { λ e. record {
      words = e.words;
      holes = e.holes.items;
      held = values_of e.held.entries;
      next = e.next;
    } };

    ghost invariant = { λ e. HasLayoutInvariant (record {
      words = e.words;
      holes = e.holes.items;
      held = values_of e.held.entries;
      next = e.next;
    }) e.held.entries (vec_capacity e.holes) };
}

impl Extents {
    /// The places of a heap of `words` words, 4 to 65536. Those from 1 on are one hole.
    pub fn open(alloc: Global, words: u64) -> Result<Extents, Memory>
        requires least { MIN_HEAP ≤ words }
        requires most { words ≤ MAX_HEAP }
        ensures size { IfOk result (λ extents. extents.words ≡ words) }
        ensures hole { IfOk result (λ extents. extents.holes ≡ record { at = 1; words = words - 1 } ∷ []) }
        ensures held { IfOk result (λ extents. extents.held ≡ []) }
        ensures next { IfOk result (λ extents. extents.next ≡ 1) }
    {
        let mut holes = Vec::with_capacity(alloc, 1)?;
        holes.push(PlaceRange {
            at: 1,
            words: words - 1,
        })?;
        Ok(Extents {
            words,
            holes,
            held: BTreeMap::new(alloc),
            next: 1,
        })
    }

    /// The first place of the block of this size that would be allocated, or `None` if no hole is large enough.
    pub fn fit(&self, words: u64) -> Option<u64>
        ensures some { IfSome result (IsFirstFit self.now.holes words) }
        ensures inside { IfSome result (λ at. (1 ≤ at) × (at + words ≤ self.now.words)) }
        ensures none { IfNone result (All (λ hole. hole.words < words) self.now.holes) }
        ensures only { (at : ℕ) → IsFirstFit self.now.holes words at → result ≡ Some at }
    {
        let index = first_fit(&self.holes, words)?;
        Some(self.holes[index].at)
    }

    /// The words of the largest hole, 0 if there is none.
    pub fn largest(&self) -> u64
        ensures { IsLargest self.now.holes result }
    {
        largest(&self.holes)
    }

    /// Allocates a block of `words` words, at least 1, at the start of the first hole that is large enough.
    pub fn take(&mut self, words: u64) -> Result<Block, TakeFault>
        requires some { 1 ≤ words }
        requires numbers { self.old.next < 2 ^ 64 - 1 }
        ensures front { IfOk result (λ block. IsFirstFit self.old.holes words block.at) }
        ensures words { IfOk result (λ block. block.words ≡ words) }
        ensures number { IfOk result (λ block. block.number ≡ self.old.next) }
        ensures held { IfOk result (λ block. self.new.held ≡ self.old.held ++ block ∷ []) }
        ensures next { OnOk result (self.new.next ≡ self.old.next + 1) }
        ensures size { self.new.words ≡ self.old.words }

        // If a hole is large enough, the only error is `Memory`.
        ensures no_hole { IsNoHole result ↔ All (λ hole. hole.words < words) self.old.holes }
        ensures largest { IfErr result (HasLargest self.old.holes words) }
        ensures err { OnErr result (self.new ≡ self.old) }
    {
        let Some(index) = first_fit(&self.holes, words) else {
            return Err(TakeFault::NoHole {
                need: words,
                largest: largest(&self.holes),
            });
        };
        if self.holes.reserve(self.held.len() + 1).is_err() {
            return Err(TakeFault::Memory);
        }
        let block = Block {
            number: self.next,
            at: self.holes[index].at,
            words,
        };
        if self.held.insert(block.number, block).is_err() {
            return Err(TakeFault::Memory);
        }
        shrink_hole(&mut self.holes, index, words);
        self.next += 1;
        Ok(block)
    }

    /// Reclaims a block by its number. Its places become a hole, merged with the holes that it touches. Never
    /// allocates. Finds the block by search, and moves the holes after it.
    pub fn reclaim(&mut self, block: u64) -> Result<(), NotHeld>
        ensures held { OnOk result (IsWithout block self.old.held self.new.held) }
        ensures size { self.new.words ≡ self.old.words }
        ensures next { self.new.next ≡ self.old.next }
        ensures not_held { IsErr result ↔ All (λ held. held.number ≢ block) self.old.held }
        ensures number { IfErr result (λ fault. fault.number ≡ block) }
        ensures err { OnErr result (self.new ≡ self.old) }
    {
        let Some(held) = self.held.remove(&block) else {
            return Err(NotHeld { number: block });
        };
        free(
            &mut self.holes,
            PlaceRange {
                at: held.at,
                words: held.words,
            },
        );
        Ok(())
    }

    /// A law; it does nothing. Held blocks and holes partition the places from 1 on, no two holes touch, and held
    /// blocks have distinct numbers below the next one.
    pub fn partition(&self)
        ensures { IsPartitioned self.now }
    {
        let _ = self.held.len();
    }
}
