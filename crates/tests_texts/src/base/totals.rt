//! Totals that are added up, and their text.

use crate::discard;
use std::alloc::Global;
use std::process::Abort;
use telemetry::{Totals, What};

// The totals of these events, as far as the counts have room.
fn totals_of(rt: &impl Abort, alloc: Global, happened: &[(u16, What)]) -> Totals {
    let mut totals = Totals::new(alloc);
    for (method, what) in happened {
        let (took, sent, refused, standing) = totals.sums();
        if took.max(sent).max(refused).max(standing) < 1000 {
            totals.add(*method, *what).expect(rt, "memory");
        }
    }
    totals
}

// Adds other totals, as far as the counts have room.
fn merge(rt: &impl Abort, totals: &mut Totals, other: &Totals) {
    let (took, sent, refused, standing) = totals.sums();
    let most = took.max(sent).max(refused).max(standing);
    let (took, sent, refused, standing) = other.sums();
    if most < 1000 && took.max(sent).max(refused).max(standing) < 1000 {
        totals.merge(other).expect(rt, "memory");
    }
}

fn tells(rt: &impl Abort, alloc: Global, totals: &Totals, text: &[u8]) {
    let told = totals.text(alloc).expect(rt, "memory");
    assert!(rt; told.as_slice() == text);
}

#[test]
fn totals_add_up_by_method(rt: HostRuntime) {
    let some = [(700, What::Took), (3, What::Took), (700, What::Refused)];
    let mut totals = totals_of(&rt, rt.alloc(), &some);
    let more = [(3, What::Took), (3, What::Standing), (65535, What::Took)];
    let other = totals_of(&rt, rt.alloc(), &more);
    merge(&rt, &mut totals, &other);
    discard(other);
    let text = b"method 3 2 0 0 1\nmethod 700 1 0 1 0\nmethod 65535 1 0 0 0\ntotals 4 0 1 1\n";
    tells(&rt, rt.alloc(), &totals, text);
    discard(totals);
}
