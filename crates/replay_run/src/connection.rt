//! A connection of a run: its calls, and the heap from which they are loaded.

ghost use Rattle.std.specs.Prelude.{◌≡◌, ◌≢◌, ◌<◌, ◌≤◌, ◌==◌, IfErr, IfOk, None, OnOk, Some, position};
ghost use Rattle.mrpc_table.specs.Valid.{IsValid};
ghost use Rattle.mrpc_table.specs.declared.limits.TheConstants.{MAX_HEAP, MAX_LOADS, MIN_HEAP};
ghost use Rattle.replay_run.specs.Follows.{new_connection};
ghost use Rattle.replay_run.specs.Kept.{IsJustOpened, IsRaceQueued, IsStored, open_connection_of};

use crate::replay_error::ReplayError;
use conn_core::Conn;
use mrpc_base::{PlainWords, Room, Stores};
use mrpc_table::Table;
use std::alloc::Global;

// The limit of stores that a heap accepts.
const STORE_LIMIT: u64 = 1 << 63;

// The state of a connection between two lines.
#[derive(Drop)]
pub(crate) struct RunConnection<'t> {
    pub calls: Conn<'t>,
    pub heap: PlainWords,
    // The number of its events that were written.
    pub told: usize,
}

// Opens a connection with a heap of this many words, whose calls are accepted by at most `limit` loads each.
pub(crate) fn open(
    alloc: Global,
    table: &Table,
    limit: u64,
    conn: u32,
    words: u32,
) -> Result<RunConnection<'_>, ReplayError>
    requires valid { IsValid table.now }
    requires least_limit { 1 ≤ limit }
    requires greatest_limit { limit ≤ MAX_LOADS }
    requires least_heap { MIN_HEAP ≤ words }
    requires greatest_heap { words ≤ MAX_HEAP }
    ensures opened { IfOk result (λ c. open_connection_of c ≡ new_connection conn words) }
    ensures fresh { IfOk result (IsJustOpened table.now limit) }
    ensures memory { IfErr result (λ stop. stop ≡ ReplayError.Memory) }
{
    let calls = Conn::open(alloc, conn, table, limit)?;
    calls.is_connection();
    match PlainWords::open(alloc, u64::from(words)) {
        Ok(heap) => Ok(RunConnection {
            calls,
            heap,
            told: 0,
        }),
        Err(_) => Err(ReplayError::Memory),
    }
}

// Returns the index of the connection with a number, if it is open.
pub(crate) fn index_of_connection(connections: &[RunConnection<'_>], conn: u32) -> Option<usize>
    ensures { result ≡ position (λ c. c.calls.conn == conn) connections.now }
{
    connections
        .iter()
        .position(|connection| connection.calls.number() == conn)
}

// Returns the index of an open connection.
pub(crate) fn open_index(connections: &[RunConnection<'_>], conn: u32) -> usize
    requires { position (λ c. c.calls.conn == conn) connections.now ≢ None }
    ensures { position (λ c. c.calls.conn == conn) connections.now ≡ Some result }
{
    match index_of_connection(connections, conn) {
        Some(place) => place,
        None => unreachable!(),
    }
}

// Stores a word. Reserves the room for it first.
pub(crate) fn store(heap: &mut PlainWords, place: u32, value: u64) -> Result<(), ReplayError>
    requires from_one { 1 ≤ place }
    requires in_heap { place < heap.old.size }
    ensures stored { OnOk result (IsStored place value heap.old heap.new) }
    ensures memory { IfErr result (λ stop. stop ≡ ReplayError.Memory) }
{
    // No machine has memory for that many stores, so the limit counts as out of memory.
    if heap.made() >= STORE_LIMIT || heap.room_stores(1) == Room::Memory {
        return Err(ReplayError::Memory);
    }
    heap.store(u64::from(place), value);
    Ok(())
}

// Queues a store that is made right before a load of the next submission.
pub(crate) fn queue_race(
    heap: &mut PlainWords,
    load: u64,
    place: u32,
    value: u64,
) -> Result<(), ReplayError>
    requires load_from_one { 1 ≤ load }
    requires from_one { 1 ≤ place }
    requires in_heap { place < heap.old.size }
    ensures listed { OnOk result (IsRaceQueued load place value heap.old heap.new) }
    ensures memory { IfErr result (λ stop. stop ≡ ReplayError.Memory) }
{
    match heap.race(load, u64::from(place), value) {
        Room::Made => Ok(()),
        Room::Memory => Err(ReplayError::Memory),
    }
}
