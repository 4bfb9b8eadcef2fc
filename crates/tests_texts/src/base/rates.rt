//! Buckets at their bounds, calculated by hand.

use policy_rate::{Bucket, Rate, Step};

#[test]
fn calls_are_charged_until_the_bucket_is_short(rt: HostRuntime) {
    let rate = Rate {
        amount: 1,
        per: 1000,
        burst: 2,
        hold: true,
    };
    let mut bucket = Bucket::full(&rate, 0);
    assert!(rt; matches!(bucket.step(&rate), Step::Pass { level: 1000 }));
    assert!(rt; matches!(bucket.step(&rate), Step::Pass { level: 0 }));
    bucket.clock(&rate, 999);
    assert!(rt;
        matches!(
            bucket.step(&rate),
            Step::Short {
                level: 999,
                cost: 1000,
            }
        )
    );
}

// No command has a level above the largest one.
#[test]
fn the_largest_numbers_do_not_wrap(rt: HostRuntime) {
    let largest = Rate {
        amount: 1000000,
        per: 86400000,
        burst: 1000000,
        hold: false,
    };
    let mut bucket = Bucket {
        level: u64::MAX,
        last: 0,
    };
    bucket.clock(&largest, u64::MAX);
    assert!(rt; bucket.level == 86400000000000);
    assert!(rt; bucket.last == u64::MAX);
    bucket.level = u64::MAX;
    bucket.convert(&largest, &largest);
    assert!(rt; bucket.level == 86400000000000);
}
