//! The wheel: which connection is visited next.

ghost use Rattle.std.specs.Prelude.{◌≡◌, ◌<◌, ◌++◌, if◌then◌else◌, drop, length, take};

use crate::account::{Account, Ending, granted};
use crate::weights::{WeightFault, Weights, by_number};
use crate::wheel_entries::{conns, count, index_of_entry, seats};
use crate::wheel_entry::WheelEntry;
use std::alloc::Global;
use std::collections::VecDeque;
use std::marker::Model;

/// A queue of connections with accounts. Each visit is of the first one, which then goes last or leaves.
#[derive(Drop)]
pub struct Wheel {
    // The listed connections, ordered by number.
    seats: Vec<WheelEntry>,
    // The numbers of the connections on the wheel.
    order: VecDeque<u32>,
}

impl Model for Wheel {
    ghost use Rattle.qos_order.specs.Wheel.{WheelState, IsWheel, AreEntriesSorted};

    ghost Value = { WheelState };

    ghost view = { λ w. record { listed = w.seats.items; order = w.order.items } };

    ghost invariant = { λ w. IsWheel (record { listed = w.seats.items; order = w.order.items })
        × AreEntriesSorted w.seats.items };
}

impl Wheel {
    ghost use Rattle.std.specs.Prelude.{◌≡◌, ◌≢◌, ℕ, Err, OnOk, IfOk, IfErr, option_copied, option_map, slice_get};
    ghost use Rattle.qos_order.specs.Weights.{IsFirstFault, AreValidWeights, conns_of_weights, weight_entry};
    ghost use Rattle.qos_order.specs.Wheel.{IsWheelVisit, IsWheel, account_of, first_grant, new_wheel_entry, wheel_entry, rotated};

    /// A wheel of these connections, in the order of their list, with zeroed accounts. `Memory` comes only if the
    /// list has no fault.
    pub fn new(alloc: Global, weights: Weights) -> Result<Wheel, WeightFault>
        ensures sound { OnOk result (AreValidWeights weights) }
        ensures order { IfOk result (λ wheel. wheel.order ≡ conns_of_weights weights) }
        ensures seats { IfOk result (λ wheel. (conn : ℕ)
            → wheel_entry wheel conn ≡ option_map new_wheel_entry (weight_entry weights conn)) }
        ensures wheel { IfOk result IsWheel }
        ensures fault { IfErr result (λ fault. (fault ≢ WeightFault.Memory) → IsFirstFault weights fault) }
        ensures memory { result ≡ Err WeightFault.Memory → AreValidWeights weights }
    {
        let entries = weights.into_vec();
        let order = conns(alloc, entries.as_slice());
        let weights = by_number(Weights::from_vec(entries))?;
        let Ok(order) = order else {
            return Err(WeightFault::Memory);
        };
        match seats(alloc, weights.as_slice()) {
            Ok(seats) => Ok(Wheel { seats, order }),
            Err(_) => Err(WeightFault::Memory),
        }
    }

    /// The connection to visit next; `None` if the wheel is empty.
    pub fn first(&self) -> Option<u32>
        ensures { result ≡ slice_get self.now.order 0 }
    {
        self.order.front().copied()
    }

    /// The rounds in a row granted to the next visit; 0 if the wheel is empty.
    pub fn first_grant(&self) -> u64
        ensures { result ≡ first_grant self.now }
    {
        let Some(conn) = self.first() else {
            return 0;
        };
        match index_of_entry(self.seats.as_slice(), conn) {
            Some(place) => {
                let seat = &self.seats[place];
                granted(seat.weight, seat.account.kept)
            }
            None => 0,
        }
    }

    /// Counts a visit of the first connection: the rounds it was given, and how the visit ended. The connection then
    /// leaves the wheel if `leaves` is set, else goes last.
    pub fn visit(&mut self, given: u64, ending: Ending, leaves: bool)
        requires { IsWheelVisit self.old (record { visit = record { given = given; ending = ending }; leaves = leaves }) }
        ensures turned { self.new ≡ rotated self.old (record {
          visit = record { given = given; ending = ending };
          leaves = leaves;
        }) }
        ensures wheel { IsWheel self.new }
    {
        let Some(conn) = self.first() else {
            unreachable!();
        };
        count(&mut self.seats, conn, given, ending);
        rotate(&mut self.order, leaves);
    }

    /// The account of a connection, on the wheel or not; `None` if it was never listed.
    pub fn account(&self, conn: u32) -> Option<&Account>
        ensures account { option_copied result ≡ account_of self.now conn }
        ensures wheel { IsWheel self.now }
    {
        match index_of_entry(self.seats.as_slice(), conn) {
            Some(place) => Some(&self.seats[place].account),
            None => None,
        }
    }
}

// Removes the first connection, and appends it unless it leaves.
fn rotate(order: &mut VecDeque<u32>, leaves: bool)
    requires { 0 < length order.old.items }
    ensures { order.new.items ≡ (if leaves then drop 1 order.old.items
        else drop 1 order.old.items ++ take 1 order.old.items) }
{
    if leaves {
        order.pop_front();
    } else {
        order.rotate_left(1);
    }
}
