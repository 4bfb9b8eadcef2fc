//! Blocks that are reclaimed in every order.

use receive_heap::Extents;
use std::alloc::Global;
use std::process::Abort;

// The orders of eight blocks.
const ORDERS: u32 = 40320;

// Eight blocks of two words, which fill a heap.
fn full(rt: &impl Abort, alloc: Global) -> Extents {
    let mut extents = Extents::open(alloc, 17).expect(rt, "memory");
    for _ in 0..8_u64 {
        extents.take(2).expect(rt, "a block");
    }
    extents
}

// Reclaims the blocks in the order with this number; whether each was held.
fn are_held(extents: &mut Extents, order: u32) -> bool {
    let mut left: [u64; 8] = [1, 2, 3, 4, 5, 6, 7, 8];
    let mut order = order;
    for taken in 0..8_u32 {
        let many = 8 - taken;
        let at = (order % many) as usize;
        order /= many;
        if extents.reclaim(left[at]).is_err() {
            return false;
        }
        left[at] = left[many as usize - 1];
    }
    true
}

// The words of the largest hole after the blocks were reclaimed in an order; 0 if one of them wasn't held.
fn largest_after(rt: &impl Abort, alloc: Global, order: u32) -> u64 {
    let mut extents = full(rt, alloc);
    if are_held(&mut extents, order) {
        extents.largest()
    } else {
        0
    }
}

#[test]
fn blocks_are_reclaimed_in_every_order(rt: HostRuntime) {
    for order in 0..ORDERS {
        assert!(rt; largest_after(&rt, rt.alloc(), order) == 16);
    }
}
