//! A receiver with its heap, and the outcomes of its turns.

ghost use Rattle.std.specs.Prelude.{◌≤◌};

use crate::discard;
use crate::given::bytes_of;
use frame_transport::FeedFault;
use mrpc_base::{PlainWords, Stores};
use mrpc_table::{Lines, Memory, Table};
use policy_access::{Access, read_access};
use receive_core::{Arrival, DropCause, Inbound};
use receive_heap::{Block, NotHeld};
use std::alloc::Global;
use std::marker::Model;
use std::process::Abort;
use table_text::read_table;

// The outcome of a turn, without its tree.
#[derive(Clone, Copy, PartialEq, Eq)]
pub(crate) enum Observed {
    Nothing,
    Arrived(u8, Block),
    Dropped(u32, DropCause),
    Waiting { need: u64, largest: u64 },
}

fn without_tree(arrival: &Arrival) -> Observed {
    match arrival {
        Arrival::None => Observed::Nothing,
        Arrival::Arrived { kind, block, .. } => Observed::Arrived(*kind, *block),
        Arrival::Dropped { number, why, .. } => Observed::Dropped(*number, *why),
        Arrival::Waiting { need, largest } => Observed::Waiting {
            need: *need,
            largest: *largest,
        },
    }
}

// A receiver with its heap. What its calls require is its invariant, so that none of them needs a clause.
pub(crate) struct Scene {
    table: Table,
    heap: PlainWords,
    inbound: Inbound,
    // The number of feeds and turns so far.
    calls: u64,
}

// Written by hand, so that a drop is one call, not a drop of each part.
impl Drop for Scene {
    fn drop(self) {
        let Scene {
            table: _table,
            heap: _heap,
            inbound: _inbound,
            calls: _,
        } = self;
    }
}

impl Model for Scene {
    ghost use Rattle.std.specs.Prelude.{ℕ};
    ghost use Rattle.tests_calls.specs.Receiver.{IsReceiving};

    ghost Value = { ℕ };

    ghost view = { λ s. s.calls };

    ghost invariant = { λ s. IsReceiving s.table s.heap s.inbound s.calls };
}

impl Scene {
    // The receiver of connection 1 with this number of words.
    pub(crate) fn open(rt: &impl Abort, alloc: Global, table: &[u8], words: u64) -> Scene
        requires least { 4 ≤ words }
        requires most { words ≤ 65536 }
    {
        Scene {
            table: read_table(alloc, table).expect(rt, "a table"),
            heap: PlainWords::open(alloc, words).expect(rt, "a heap"),
            inbound: Inbound::open(alloc, 1, words).expect(rt, "a receiver"),
            calls: 0,
        }
    }

    // Feeds at most 1000 bytes of a stream; whether there is no fault so far.
    pub(crate) fn feed(&mut self, piece: &[u8]) -> bool {
        self.fault_at(piece).is_none()
    }

    // Feeds at most 1000 bytes of a stream; the fault that it returns.
    pub(crate) fn fault_at(&mut self, piece: &[u8]) -> Option<FeedFault> {
        if self.calls > 1000 || piece.len() > 1000 {
            return Some(FeedFault::Memory);
        }
        self.calls += 1;
        self.inbound.bytes(piece).err()
    }

    // The outcome of one turn.
    fn turn(&mut self, policy: Option<&Access>) -> Result<Observed, Memory> {
        if self.calls > 1000 || self.heap.made() > 1000 {
            return Err(Memory);
        }
        self.calls += 1;
        Ok(without_tree(&self.inbound.turn(&self.table, policy, &mut self.heap)?))
    }

    // One turn without a policy has this outcome.
    pub(crate) fn expects(&mut self, rt: &impl Abort, expected: Observed) {
        let told = self.turn(None).expect(rt, "a turn");
        assert!(rt; told == expected);
    }

    // One turn under the policy of a line has this outcome.
    pub(crate) fn expects_under(
        &mut self,
        rt: &impl Abort,
        alloc: Global,
        line: &[u8],
        expected: Observed,
    ) {
        let policy = self.policy_of(rt, alloc, line);
        let told = self.turn(Some(&policy)).expect(rt, "a turn");
        discard(policy);
        assert!(rt; told == expected);
    }

    // Reclaims a block.
    pub(crate) fn reclaim(&mut self, block: u64) -> Result<(), NotHeld> {
        self.inbound.reclaim(block)
    }

    // The whole frame after this number of others.
    pub(crate) fn waiting(&self, others: u64) -> Option<(u8, u16, u32)> {
        self.inbound.waiting(others)
    }

    // The version and the payload length of the hello that comes first; it is taken.
    pub(crate) fn take_hello(&mut self) -> Option<(u8, usize)> {
        let hello = self.inbound.take_hello()?;
        Some((hello.version, hello.payload.len()))
    }

    // The version of the first whole frame.
    pub(crate) fn first_version(&self) -> Option<u8> {
        let first = self.inbound.first()?;
        Some(first.version)
    }

    // The number of bytes that are in no whole frame.
    pub(crate) fn unframed_bytes(&self) -> u64 {
        self.inbound.partial_len()
    }

    // The policy of a line.
    fn policy_of(&self, rt: &impl Abort, alloc: Global, line: &[u8]) -> Access {
        let mut lines = Lines::new(alloc);
        lines.push(bytes_of(rt, alloc, line)).expect(rt, "memory");
        read_access(alloc, &lines, &self.table).expect(rt, "a policy")
    }
}
