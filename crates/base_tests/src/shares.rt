//! Shares.

use share_rules::{share, share_run};

// Each share is what the days up to its day take, rounded half up, less what those before it take.
const SHARES: [(u32, u32, u32, u32); 11] = [
    (548, 29, 29, 19), // 548 less 529.10
    (545, 1, 30, 18), // 18.17
    (545, 15, 30, 19), // 272.50, so 273, less 254.33
    (545, 16, 30, 18), // 290.67, so 291, less 273
    (1, 13, 28, 0), // 0.46
    (1, 14, 28, 1), // 0.50, so 1
    (1, 15, 31, 0), // 0.48
    (1, 16, 31, 1), // 0.52, so 1
    (0, 1, 28, 0),
    (109_998, 1, 31, 3548), // 3,548.32
    (109_998, 31, 31, 3548), // 109,998 less 106,449.68
];

#[test]
fn shares_of_one_day(rt: HostRuntime) {
    for (amount, day, days, wanted) in &SHARES {
        let (amount, day, days) = (*amount, *day, *days);
        assert!(rt; 1 <= day && day <= days);
        assert!(rt; 28 <= days && days <= 31 && amount <= 109_998);
        assert!(rt;
            share(amount, day, days) == *wanted,
            "{amount}, {day}, {days}"
        );
    }
}

const RUNS: [(u32, u32, u32, u32, u32); 9] = [
    (545, 1, 15, 30, 273),
    (545, 16, 30, 30, 272),
    (548, 1, 10, 30, 183), // 182.67
    (548, 11, 30, 30, 365), // what is left of 548
    (548, 29, 29, 29, 19),
    (1, 1, 13, 28, 0),
    (1, 14, 28, 28, 1),
    (109_998, 1, 28, 28, 109_998),
    (109_998, 1, 31, 31, 109_998),
];

#[test]
fn shares_of_a_run(rt: HostRuntime) {
    for (amount, first, last, days, wanted) in &RUNS {
        let found = share_run(*amount, *first, *last, *days);
        assert!(rt; found == *wanted, "{amount}, {first}, {last}");
    }
}
