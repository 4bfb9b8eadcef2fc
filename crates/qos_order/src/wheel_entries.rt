//! The listed connections of a wheel, by number.

ghost use Rattle.std.specs.Prelude.{◌≡◌, ◌<◌, ◌==◌, nat_eq, All, IfOk, IfSome, IsSomeAnd, find, length, map, option_and_then, slice_get};
ghost use Rattle.std.specs.List.{IsDistinct};
ghost use Rattle.qos_order.specs.Account.{IsWithinGrant, IsBalanced, IsWeight, granted};
ghost use Rattle.qos_order.specs.Weights.{conns_of_weights};
ghost use Rattle.qos_order.specs.Wheel.{AreEntriesSorted, listed_after, listed_conns, new_wheel_entry};

use crate::account::{Account, Ending};
use crate::weights::Weight;
use crate::wheel_entry::WheelEntry;
use std::alloc::{AllocError, Global};
use std::collections::VecDeque;

// The index of a connection in a list ordered by number.
pub(crate) fn index_of_entry(seats: &[WheelEntry], conn: u32) -> Option<usize>
    requires once { IsDistinct nat_eq (listed_conns seats.now) }
    requires ascends { AreEntriesSorted seats.now }
    ensures seat { option_and_then (slice_get seats.now) result ≡ find (λ s. s.conn == conn) seats.now }
    ensures within { IfSome result (λ place. place < length seats.now) }
{
    match seats.binary_search_by_key(&conn, |seat| seat.conn) {
        Ok(place) => Some(place),
        Err(_) => None,
    }
}

// Counts a visit in the account of a listed connection.
pub(crate) fn count(seats: &mut [WheelEntry], conn: u32, given: u64, ending: Ending)
    requires once { IsDistinct nat_eq (listed_conns seats.old) }
    requires ascends { AreEntriesSorted seats.old }
    requires weights { All (λ s. IsWeight s.weight) seats.old }
    requires balanced { All (λ s. IsBalanced s.weight s.account) seats.old }
    requires fits { IsSomeAnd (find (λ s. s.conn == conn) seats.old) (λ s.
        IsWithinGrant (granted s.weight s.account.kept) (record { given = given; ending = ending })) }
    ensures { seats.new ≡ listed_after conn (record { given = given; ending = ending }) seats.old }
{
    let Some(place) = index_of_entry(seats, conn) else {
        unreachable!();
    };
    let seat = &mut seats[place];
    let weight = seat.weight;
    seat.account.visit(weight, given, ending);
}

// The connections of a list, in its order.
pub(crate) fn conns(alloc: Global, weights: &[Weight]) -> Result<VecDeque<u32>, AllocError>
    ensures { IfOk result (λ order. order.items ≡ conns_of_weights weights.now) }
{
    let mut order = VecDeque::with_capacity(alloc, weights.len())?;
    for weight in weights {
        order.push_back(weight.conn)?;
    }
    Ok(order)
}

// The connections of a list, before their first visits.
pub(crate) fn seats(alloc: Global, weights: &[Weight]) -> Result<Vec<WheelEntry>, AllocError>
    ensures { IfOk result (λ seats. seats.items ≡ map new_wheel_entry weights.now) }
{
    let mut seats = Vec::with_capacity(alloc, weights.len())?;
    for weight in weights {
        seats.push(WheelEntry {
            conn: weight.conn,
            weight: weight.weight,
            account: Account::new(),
        })?;
    }
    Ok(seats)
}
