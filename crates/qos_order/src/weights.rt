//! Lists of connections' weights.

ghost use Rattle.std.specs.Prelude.{◌≡◌, ◌≤◌, ◌↔◌, OnOk, IfOk, IfErr, IfNone, IfSome, IsTrue, All, Contains, length, take, slice_get, option_map};
ghost use Rattle.qos_order.specs.Account.{IsWeight};
ghost use Rattle.std.specs.List.Sorted.{IsPermutation};
ghost use Rattle.qos_order.specs.Weights.{AreValidWeights, IsFirstFault, AreSortedByConn, conns_of_weights};

use std::marker::Model;
use thiserror::Error;

/// The weight of a connection.
#[derive(Clone, Copy)]
pub struct Weight {
    /// The connection's number.
    pub conn: u32,
    /// The rounds granted by each of its visits, 1 to 100.
    pub weight: u64,
}

/// Why a list of weights is rejected: its first faulty entry. If an entry has both faults, `Range` comes before
/// `Twice`.
#[derive(Clone, Copy, Debug, PartialEq, Eq, Error)]
pub enum WeightFault {
    /// The weight of this connection isn't 1 to 100.
    #[error("the weight of connection {conn} isn't 1 to 100")]
    Range {
        /// The connection's number.
        conn: u32,
    },
    /// This connection is listed twice.
    #[error("connection {conn} stands twice")]
    Twice {
        /// The connection's number.
        conn: u32,
    },
    /// Out of memory.
    #[error("out of memory")]
    Memory,
}

/// A list of weights, over a vector.
#[derive(Drop)]
pub struct Weights {
    items: Vec<Weight>,
}

impl Model for Weights {
    ghost use Rattle.std.specs.Prelude.{List};
    ghost use Rattle.qos_order.specs.declared.weights.Weight.{Weight};

    ghost Value = { List Weight };

    ghost view = { λ w. w.items.items };
}

impl Weights {
    /// The list of the vector's items. Doesn't allocate.
    pub fn from_vec(items: Vec<Weight>) -> Weights
        ensures { result ≡ items.items }
    {
        Weights { items }
    }

    /// The vector of the weights. Doesn't allocate.
    pub fn into_vec(self) -> Vec<Weight>
        ensures { result.items ≡ self }
    {
        self.items
    }
}

// The weights in ascending order of number, or their first fault. Doesn't allocate.
pub(crate) fn by_number(weights: Weights) -> Result<Vec<Weight>, WeightFault>
    ensures sound { OnOk result (AreValidWeights weights) }
    ensures same { IfOk result (λ sorted. IsPermutation weights sorted.items) }
    ensures ascends { IfOk result (λ sorted. AreSortedByConn sorted.items) }
    ensures fault { IfErr result (IsFirstFault weights) }
{
    let mut entries = weights.items;
    sort(&mut entries)?;
    Ok(entries)
}

// Sorts the entries by number if they are valid; else returns their first fault.
fn sort(entries: &mut [Weight]) -> Result<(), WeightFault>
    ensures sound { OnOk result (AreValidWeights entries.old) }
    ensures same { OnOk result (IsPermutation entries.old entries.new) }
    ensures ascends { OnOk result (AreSortedByConn entries.new) }
    ensures fault { IfErr result (IsFirstFault entries.old) }
{
    let ranged = valid_prefix_len(entries);
    let outside = conn_at(entries, ranged);
    if let Some(conn) = sort_distinct(&mut entries[..ranged]) {
        return Err(WeightFault::Twice { conn });
    }
    match outside {
        Some(conn) => Err(WeightFault::Range { conn }),
        None => Ok(()),
    }
}

// The number of entries before the first one whose weight isn't 1 to 100.
fn valid_prefix_len(entries: &[Weight]) -> usize
    ensures within { result ≤ length entries.now }
    ensures ranged { All (λ w. IsWeight w.weight) (take result entries.now) }
    ensures next { IfSome (slice_get entries.now result) (λ w. ¬ IsWeight w.weight) }
{
    for (i, entry) in entries.iter().enumerate() {
        if entry.weight < 1 || entry.weight > 100 {
            return i;
        }
    }
    entries.len()
}

// The connection of the entry at an index; `None` past the end.
fn conn_at(entries: &[Weight], place: usize) -> Option<u32>
    ensures { result ≡ option_map (λ w. w.conn) (slice_get entries.now place) }
{
    match entries.get(place) {
        Some(entry) => Some(entry.conn),
        None => None,
    }
}

// Sorts entries by number if no connection is listed twice; else returns the first one that is. Sorts each half, then
// searches the second half for connections of the first, so it takes n log^2 n time and doesn't allocate.
fn sort_distinct(entries: &mut [Weight]) -> Option<u32>
    requires { All (λ w. IsWeight w.weight) entries.old }
    ensures sound { IfNone result (AreValidWeights entries.old) }
    ensures same { IfNone result (IsPermutation entries.old entries.new) }
    ensures ascends { IfNone result (AreSortedByConn entries.new) }
    ensures twice { IfSome result (λ conn. IsFirstFault entries.old (WeightFault.Twice conn)) }
{
    let half = entries.len() / 2;
    if half == 0 {
        return None;
    }
    if let Some(conn) = sort_distinct(&mut entries[..half]) {
        return Some(conn);
    }
    let (front, back) = entries.split_at_mut(half);
    let apart = disjoint_prefix_len(front, back);
    let met = conn_at(back, apart);
    if let Some(conn) = sort_distinct(&mut back[..apart]) {
        return Some(conn);
    }
    if met.is_some() {
        return met;
    }
    entries.sort_unstable_by_key(|entry| entry.conn);
    None
}

// The number of entries of `back` before the first one whose connection is also in `front`, which is sorted.
fn disjoint_prefix_len(front: &[Weight], back: &[Weight]) -> usize
    requires { AreSortedByConn front.now }
    ensures within { result ≤ length back.now }
    ensures apart { All (λ w. ¬ Contains (conns_of_weights front.now) w.conn) (take result back.now) }
    ensures next { IfSome (slice_get back.now result) (λ w. Contains (conns_of_weights front.now) w.conn) }
{
    for (i, entry) in back.iter().enumerate() {
        if has_conn(front, entry.conn) {
            return i;
        }
    }
    back.len()
}

// Whether sorted entries contain a connection.
fn has_conn(entries: &[Weight], conn: u32) -> bool
    requires { AreSortedByConn entries.now }
    ensures { IsTrue result ↔ Contains (conns_of_weights entries.now) conn }
{
    entries
        .binary_search_by_key(&conn, |entry| entry.conn)
        .is_ok()
}
