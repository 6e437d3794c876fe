//! Incomes.

use days_core::Day;
use facts_core::{Asset, Disposal, Facts, Income, IncomeKind, Member, Relation, broken_rule};
use income_rules::{annual_income, counted_earned, net_assets};
use plain_data::Listed;
use sample_office::{day, facts, income, member};
use std::alloc::Global;
use std::process::Abort;

/// A head who was born in 1980, another, and a child of nine, with these incomes.
fn household(rt: &impl Abort, alloc: Global, other: Member, incomes: &[Income]) -> Facts {
    let head = member(Relation::Head, day("1980-01-31"));
    let child = member(Relation::Other, day("2015-03-01"));
    facts(alloc, &[head, other, child], incomes).expect(rt, "memory")
}

/// What an asset is worth and yields, the day on which something was sold, what it was worth and what was received for it,
/// and then the net assets and the income that counts.
type AssetCase = ([u32; 2], &'static str, [u32; 2], [u32; 2]);

// Above 5,000 of net assets the greater of the actual income and 2 percent counts: 5,001 * 2 / 100 = 100.02.
// Disposals of the two years to 2024-06-01 count where more than 1,000 was given away.
const ASSETS: [AssetCase; 8] = [
    ([5_000, 10], "2024-06-01", [0, 0], [5_000, 10]),
    ([5_001, 10], "2024-06-01", [0, 0], [5_001, 100]),
    ([5_001, 300], "2024-06-01", [0, 0], [5_001, 300]),
    ([0, 7], "2024-06-01", [10_000, 9_000], [0, 7]),
    ([0, 7], "2024-06-01", [10_000, 8_999], [1_001, 7]),
    ([0, 7], "2022-06-01", [10_000, 0], [10_000, 200]),
    ([0, 7], "2022-05-31", [10_000, 0], [0, 7]),
    ([0, 7], "2024-06-02", [10_000, 0], [0, 7]),
];

#[test]
fn assets_and_disposals(rt: HostRuntime) {
    for (owned, sold, given, counted) in &ASSETS {
        let facts = owners(&rt, rt.alloc(), *owned, day(*sold), *given);
        let found = assets_of(&rt, &facts, day("2024-06-01"));
        assert!(rt; found == *counted, "{owned:?} {sold} {given:?}");
    }
}

/// The household with an asset and a disposal, and no incomes.
fn owners(rt: &impl Abort, alloc: Global, owned: [u32; 2], sold: Day, given: [u32; 2]) -> Facts {
    let [value, income] = owned;
    let asset = Asset { value, income };
    let [value, received] = given;
    let disposal = Disposal {
        day: sold,
        value,
        received,
    };
    let child = member(Relation::Other, day("2015-03-01"));
    let mut facts = household(rt, alloc, child, &[]);
    facts.assets = Listed::new([asset].to_vec(alloc).expect(rt, "memory"));
    facts.disposals = Listed::new([disposal].to_vec(alloc).expect(rt, "memory"));
    facts
}

/// The net assets and the income of them, which is all that these facts have.
fn assets_of(rt: &impl Abort, facts: &Facts, day: Day) -> [u32; 2] {
    assert!(rt; broken_rule(facts, day).is_none());
    let annual = annual_income(facts, day, 200);
    assert!(rt; annual.total == annual.asset);
    [net_assets(facts, day), annual.asset]
}

/// The relation, birth and studies of the first of two others, the kind and amount of its second income, whose the last
/// income is, and then what counts of the first one's earnings and the annual unearned income.
type IncomeCase = (Relation, &'static str, bool, IncomeKind, u32, u32, [u32; 2]);

// The first of two others has wages of 6,000 and another income, and the last income is 300 of adoption assistance.
// 18 years on 2024-06-01 has who was born on 2006-06-01. Of a student's earnings 480 count, and of the adoption
// assistance of one child, which is 300 + 300 here, 480.
const INCOMES: [IncomeCase; 7] = [
    (
        Relation::Other,
        "2006-06-01",
        true,
        IncomeKind::Other,
        500,
        2,
        [480, 800],
    ),
    (
        Relation::Other,
        "2006-06-01",
        false,
        IncomeKind::Business,
        10,
        2,
        [6_010, 300],
    ),
    (
        Relation::Other,
        "2006-06-02",
        false,
        IncomeKind::Welfare,
        10,
        2,
        [0, 310],
    ),
    (
        Relation::Spouse,
        "2006-06-02",
        true,
        IncomeKind::Benefits,
        10,
        2,
        [6_000, 310],
    ),
    (
        Relation::Aide,
        "1990-01-31",
        false,
        IncomeKind::Benefits,
        10,
        2,
        [0, 300],
    ),
    (
        Relation::Other,
        "2015-03-01",
        false,
        IncomeKind::Adoption,
        300,
        1,
        [0, 480],
    ),
    (
        Relation::Other,
        "2015-03-01",
        false,
        IncomeKind::Adoption,
        300,
        2,
        [0, 600],
    ),
];

#[test]
fn incomes_of_members(rt: HostRuntime) {
    for (relation, born, student, kind, annual, place, counted) in &INCOMES {
        let mut other = member(*relation, day(*born));
        other.student = *student;
        let incomes = [
            income(1, IncomeKind::Wages, 6_000),
            income(1, *kind, *annual),
            income(*place, IncomeKind::Adoption, 300),
        ];
        let facts = household(&rt, rt.alloc(), other, &incomes);
        assert!(rt;
            incomes_of(&rt, &facts, day("2024-06-01")) == *counted,
            "{born} {annual} {place}"
        );
    }
}

/// What counts of the earnings of member 1, which are all that there are, and the unearned income.
fn incomes_of(rt: &impl Abort, facts: &Facts, day: Day) -> [u32; 2] {
    assert!(rt; broken_rule(facts, day).is_none());
    assert!(rt; facts.members.as_slice().len() == 3);
    let annual = annual_income(facts, day, 200);
    assert!(rt; counted_earned(facts, 1, day) == annual.earned);
    [annual.earned, annual.unearned]
}
