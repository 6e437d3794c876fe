//! Who is next.

use rent_table::LimitRow;
use sample_office::{day, limit_row, plan, unit};
use std::alloc::Global;
use std::process::Abort;
use wait_list::{Applicant, Ask, Candidate, Targets, WaitList, best_rank, wants_extremely_low};

/// The limits of every size, but for families of two.
fn limits() -> LimitRow {
    let mut row = limit_row(day("2024-01-01"), 2);
    row.very_low[1] = 34_300;
    row.extremely_low[1] = 20_600;
    row
}

/// The first of the two who apply, without a preference.
const ONE: Applicant = Applicant {
    number: 1,
    act: 11,
    size: 1,
    persons: 1,
    rank: 100,
    accessible: false,
    annual: 25_000,
};

const TWO: Applicant = Applicant {
    number: 2,
    act: 12,
    size: 1,
    persons: 1,
    rank: 100,
    accessible: false,
    annual: 20_000,
};

const THREE: Applicant = Applicant {
    number: 3,
    act: 13,
    size: 1,
    persons: 1,
    rank: 100,
    accessible: false,
    annual: 9_600,
};

#[derive(Clone, Copy)]
struct Case {
    early: bool,
    limited: bool,
    wanted: bool,
    accessible: bool,
    needing: Option<u32>,
    other: Option<u32>,
}

/// Limits stand, nobody would move, and no extremely low-income applicant is wanted.
const CASE: Case = Case {
    early: false,
    limited: true,
    wanted: false,
    accessible: false,
    needing: None,
    other: None,
};

const EARLY: Case = Case {
    early: true,
    limited: true,
    wanted: false,
    accessible: false,
    needing: None,
    other: None,
};

const UNLIMITED: Case = Case {
    early: false,
    limited: false,
    wanted: false,
    accessible: false,
    needing: None,
    other: None,
};

const WANTED: Case = Case {
    early: false,
    limited: true,
    wanted: true,
    accessible: false,
    needing: None,
    other: None,
};

fn add(rt: &impl Abort, list: &mut WaitList, applicant: Applicant) {
    assert!(rt; !list.listed(applicant.number));
    let earlier = list.applicants();
    assert!(rt; earlier.iter().all(|earlier| earlier.act < applicant.act));
    assert!(rt; 1 <= applicant.size && applicant.size <= 12);
    list.reserve().expect(rt, "memory");
    list.push(applicant);
}

fn list_of(rt: &impl Abort, alloc: Global, applicants: &[Applicant]) -> WaitList {
    let mut list = WaitList::new(alloc).expect(rt, "memory");
    for applicant in applicants {
        add(rt, &mut list, *applicant);
    }
    list
}

/// Who on the list is next for a unit of one bedroom, which is for one or two persons.
fn next(rt: &impl Abort, alloc: Global, case: Case, list: &WaitList) -> Option<Candidate> {
    let mut plan = plan(alloc, &[]).expect(rt, "memory");
    plan.early = case.early;
    let mut unit = unit(alloc, 1, "A-101").expect(rt, "memory");
    unit.accessible = case.accessible;
    assert!(rt; unit.bedrooms <= 5);
    assert!(rt; unit.accessible || case.needing.is_none());
    let limits = limits();
    let ask = Ask {
        unit: &unit,
        plan: &plan,
        limits: if case.limited { Some(&limits) } else { None },
        wanted: case.wanted,
        needing: case.needing,
        other: case.other,
    };
    list.next_for(&ask)
}

/// Who of two applicants, or which household, is next.
fn next_of(
    rt: &impl Abort,
    alloc: Global,
    case: Case,
    first: Applicant,
    second: Applicant,
) -> Option<Candidate> {
    let list = list_of(rt, alloc, &[first, second]);
    next(rt, alloc, case, &list)
}

fn applicant(number: u32) -> Option<Candidate> {
    Some(Candidate::Applicant(number))
}

// Where fewer than four in ten are of extremely low income, one of 9,600 goes before those of 25,000 and 20,000.
#[test]
fn a_target_that_is_open_decides(rt: HostRuntime) {
    let alloc = rt.alloc();
    let mut list = list_of(&rt, alloc, &[ONE, TWO, THREE]);
    assert!(rt; next(&rt, alloc, CASE, &list) == applicant(1));
    assert!(rt; next(&rt, alloc, WANTED, &list) == applicant(3));
    assert!(rt; list.remove(3));
    assert!(rt; !list.remove(3));
    assert!(rt; next(&rt, alloc, WANTED, &list) == applicant(1));
    assert!(rt; list.remove(1));
    assert!(rt; next(&rt, alloc, CASE, &list) == applicant(2));
    assert!(rt; list.applicants() == [TWO].as_slice());
}

// The limits: 30,000 and 18,000 for one person, 34,300 and 20,600 for two; 48,000 where the contract is early. A unit of
// one bedroom is for one or two persons.
const ADMITTED: [(Case, [u32; 3], bool); 9] = [
    (CASE, [1, 1, 30_000], true),
    (CASE, [1, 1, 30_001], false),
    (CASE, [2, 2, 30_001], true),
    (CASE, [2, 2, 34_301], false),
    (EARLY, [1, 1, 48_000], true),
    (EARLY, [1, 1, 48_001], false),
    (CASE, [1, 0, 9_600], false),
    (CASE, [1, 2, 9_600], true),
    (CASE, [1, 3, 9_600], false),
];

#[test]
fn who_could_be_admitted(rt: HostRuntime) {
    for (case, sizes, first) in &ADMITTED {
        let next = next_of(&rt, rt.alloc(), *case, one_of(*sizes), TWO);
        let number = if *first { 1 } else { 2 };
        assert!(rt; next == applicant(number), "{sizes:?}");
    }
    assert!(rt; next_of(&rt, rt.alloc(), UNLIMITED, ONE, TWO).is_none());
}

/// Applicant 1 of a size, so many persons and that income.
fn one_of(sizes: [u32; 3]) -> Applicant {
    let [size, persons, annual] = sizes;
    let mut one = ONE;
    one.size = size;
    one.persons = persons;
    one.annual = annual;
    one
}

/// The ranks and the incomes of applicants 5 and 2, the size of the second's family, and who is next.
type RankCase = (Case, [u32; 2], [u32; 2], u32, u32);

// By the smaller rank, then by the earlier act and not by the number; where one of extremely low income is wanted, by that
// first: at most 18,000 for one person, 20,600 for two.
const RANKS: [RankCase; 11] = [
    (CASE, [100, 100], [25_000, 20_000], 1, 5),
    (CASE, [100, 1], [25_000, 20_000], 1, 2),
    (CASE, [1, 100], [25_000, 20_000], 1, 5),
    (CASE, [2, 2], [25_000, 9_600], 1, 5),
    (WANTED, [1, 100], [25_000, 18_000], 1, 2),
    (WANTED, [100, 100], [25_000, 18_001], 1, 5),
    (WANTED, [100, 100], [25_000, 20_600], 2, 2),
    (WANTED, [100, 100], [25_000, 20_601], 2, 5),
    (WANTED, [100, 1], [25_000, 20_000], 1, 2),
    (WANTED, [100, 1], [9_600, 12_000], 1, 2),
    (WANTED, [1, 1], [12_000, 9_600], 1, 5),
];

#[test]
fn who_comes_first(rt: HostRuntime) {
    for (case, [rank, other_rank], [annual, other_annual], size, first) in &RANKS {
        let mut five = ranked(ONE, *rank, *annual);
        five.number = 5;
        let mut two = ranked(TWO, *other_rank, *other_annual);
        two.size = *size;
        let next = next_of(&rt, rt.alloc(), *case, five, two);
        assert!(rt;
            next == applicant(*first),
            "{rank} {other_rank} {annual} {other_annual}"
        );
    }
}

fn ranked(applicant: Applicant, rank: u32, annual: u32) -> Applicant {
    let mut ranked = applicant;
    ranked.rank = rank;
    ranked.annual = annual;
    ranked
}

/// Whether the unit is accessible, which household would move there and needs it or doesn't, whether applicant 2 needs it,
/// and who is next.
type NeedCase = (bool, Option<u32>, Option<u32>, bool, Candidate);

// For an accessible unit: movers who need it, applicants who need it, other movers, other applicants. For another unit:
// movers, applicants. Applicant 2 alone needs accessible features.
const NEEDS: [NeedCase; 8] = [
    (true, None, Some(7), true, Candidate::Applicant(2)),
    (true, Some(7), None, true, Candidate::Household(7)),
    (true, Some(7), Some(8), true, Candidate::Household(7)),
    (true, None, Some(7), false, Candidate::Household(7)),
    (true, None, None, true, Candidate::Applicant(2)),
    (true, None, None, false, Candidate::Applicant(1)),
    (false, None, Some(7), true, Candidate::Household(7)),
    (false, None, None, true, Candidate::Applicant(1)),
];

#[test]
fn who_needs_accessible_features_goes_first(rt: HostRuntime) {
    for case in &NEEDS {
        goes_first(&rt, rt.alloc(), *case, false);
        goes_first(&rt, rt.alloc(), *case, true);
    }
}

fn goes_first(rt: &impl Abort, alloc: Global, case: NeedCase, wanted: bool) {
    let (accessible, needing, other, needed, next) = case;
    let case = Case {
        early: false,
        limited: true,
        wanted,
        accessible,
        needing,
        other,
    };
    let lowest = ranked(ONE, 100, 9_600);
    let mut second = TWO;
    second.accessible = needed;
    let found = next_of(rt, alloc, case, lowest, second);
    assert!(rt; found == Some(next), "{accessible} {needed} {wanted}");
}

/// The method, how many are expected, were admitted and were of extremely low income, and whether one more is wanted.
type TargetCase = (u32, u32, u32, u32, bool);

// 10 times those of extremely low income are fewer than 4 times those expected: 30 and 40, but not 40 and 40. By the second
// method also an even number was admitted. Sums of ten times the greatest number fit.
const TARGETS: [TargetCase; 12] = [
    (1, 10, 3, 3, true),
    (1, 10, 4, 4, false),
    (1, 0, 0, 0, false),
    (1, 1, 0, 0, true),
    (2, 10, 2, 0, true),
    (2, 10, 3, 0, false),
    (2, 10, 4, 4, false),
    (0, 10, 2, 0, false),
    (3, 10, 2, 0, false),
    (1, u32::MAX, 0, 1_717_986_917, true),
    (1, u32::MAX, 0, 1_717_986_918, false),
    (1, u32::MAX, 0, u32::MAX, false),
];

#[test]
fn the_target_is_four_in_ten(rt: HostRuntime) {
    for (method, expected, admitted, extremely, wanted) in &TARGETS {
        let targets = Targets {
            method: *method,
            expected: *expected,
            admitted: *admitted,
            extremely: *extremely,
        };
        assert!(rt;
            wants_extremely_low(&targets) == *wanted,
            "{method} {expected} {admitted} {extremely}"
        );
    }
}

// The plan gives its preferences 1 to 3 the ranks 2, 1 and 5; codes 0, 4 and above have none.
const PREFERENCES: [([u32; 3], u32); 6] = [
    ([0, 0, 0], 100),
    ([1, 0, 0], 2),
    ([1, 3, 2], 1),
    ([3, 3, 1], 2),
    ([4, 3, 9], 5),
    ([4, 16, u32::MAX], 100),
];

#[test]
fn the_best_rank_counts(rt: HostRuntime) {
    let plan = plan(rt.alloc(), &[2, 1, 5]).expect(&rt, "memory");
    for (preferences, rank) in &PREFERENCES {
        assert!(rt; best_rank(&plan, preferences) == *rank, "{preferences:?}");
    }
    assert!(rt; best_rank(&plan, &[]) == 100);
}
