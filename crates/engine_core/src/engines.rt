//! Helpers for the engines of a chain: look-up by name, insertion, clocks.

ghost use Rattle.std.specs.Prelude.{◌≡◌, ◌<◌, ◌≤◌, insert, length, map, position, vec_capacity};
ghost use Rattle.engine_core.specs.Chains.{is_named};
ghost use Rattle.engine_core.specs.Engines.{clocked};

use crate::engine::Engine;
use mrpc_table::Name;

/// The position of the engine with a name.
pub fn position_of(engines: &[Engine], name: &Name) -> Option<usize>
    ensures { result ≡ position (λ e. is_named name.now e.entry) engines.now }
{
    position_named(engines, name.as_slice())
}

/// Like `position_of`, by the bytes of the name.
pub fn position_named(engines: &[Engine], name: &[u8]) -> Option<usize>
    ensures { result ≡ position (λ e. is_named name.now e.entry) engines.now }
{
    engines
        .iter()
        .position(|engine| engine.name().as_slice() == name)
}

/// Inserts an item at a position. There must be capacity for it.
pub fn insert_within_capacity<T>(items: &mut Vec<T>, at: usize, item: T)
    requires at { at ≤ length items.old.items }
    requires room { length items.old.items < vec_capacity items.old }
    ensures items { items.new.items ≡ insert items.old.items at item }
    ensures capacity { vec_capacity items.new ≡ vec_capacity items.old }
{
    match items.insert(at, item) {
        Ok(()) => {}
        Err(_) => unreachable!(),
    }
}

/// Advances every bucket to a timestamp in milliseconds. An earlier timestamp counts as the last one.
pub fn clock_all(engines: &mut [Engine], now: u64)
    ensures { engines.new ≡ map (λ e. clocked now e) engines.old }
{
    for engine in engines.iter_mut() {
        engine.clock(now);
    }
}
