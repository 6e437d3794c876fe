//! Deductions.

use days_core::Day;
use deduction_rules::{Allowances, adjusted_income};
use facts_core::{Facts, IncomeKind, Member, Relation, broken_rule};
use income_rules::annual_income;
use sample_office::{day, facts, income, member};
use std::alloc::Global;
use std::process::Abort;

/// The head's birth and whether it is disabled, its wages and benefits, the birth and studies of the other, what is spent
/// on care for work and for school, for a disability and for medicine, and then what is deducted for dependents, for the
/// elderly, for care, for a disability and for medicine, and the adjusted income.
type DeductionCase = (
    &'static str,
    bool,
    [u32; 2],
    &'static str,
    bool,
    [u32; 4],
    [u32; 6],
);

// On 2024-06-01 the heads are 45, 70, 62 and just under 62, and the other members 24, 18, 12 and just 13.
// Three percent of 20,000 is 600, and of 9,600 it is 288.
const DEDUCTIONS: [DeductionCase; 9] = [
    (
        "1979-06-01",
        true,
        [1_000, 19_000],
        "2000-03-01",
        false,
        [0, 0, 2_000, 800],
        [0, 400, 0, 1_000, 800, 17_800],
    ),
    (
        "1979-06-01",
        true,
        [1_000, 19_000],
        "2000-03-01",
        false,
        [0, 0, 400, 800],
        [0, 400, 0, 0, 600, 19_000],
    ),
    (
        "1954-06-01",
        false,
        [0, 9_600],
        "2000-03-01",
        false,
        [0, 0, 0, 1_000],
        [0, 400, 0, 0, 712, 8_488],
    ),
    (
        "1954-06-01",
        false,
        [0, 9_600],
        "2000-03-01",
        false,
        [0, 0, 1, 1_000],
        [0, 400, 0, 0, 713, 8_487],
    ),
    (
        "1962-06-01",
        false,
        [0, 9_600],
        "2000-03-01",
        false,
        [0, 0, 0, 0],
        [0, 400, 0, 0, 0, 9_200],
    ),
    (
        "1962-06-02",
        false,
        [0, 9_600],
        "2000-03-01",
        false,
        [0, 0, 0, 1_000],
        [0, 0, 0, 0, 0, 9_600],
    ),
    (
        "1979-06-01",
        false,
        [0, 9_600],
        "2006-06-01",
        true,
        [9, 9, 0, 0],
        [480, 0, 0, 0, 0, 9_120],
    ),
    (
        "1979-06-01",
        false,
        [20_000, 0],
        "2011-06-02",
        false,
        [25_000, 300, 0, 0],
        [480, 0, 20_300, 0, 0, 0],
    ),
    (
        "1979-06-01",
        false,
        [20_000, 0],
        "2011-06-01",
        false,
        [25_000, 300, 0, 0],
        [480, 0, 0, 0, 0, 19_520],
    ),
];

#[test]
fn deductions_of_households(rt: HostRuntime) {
    for (born, disabled, incomes, other_born, student, spent, deducted) in &DEDUCTIONS {
        let mut head = person(Relation::Head, *born);
        head.disabled = *disabled;
        let mut other = person(Relation::Other, *other_born);
        other.student = *student;
        let facts = household(&rt, rt.alloc(), [head, other], *incomes, *spent);
        let found = allowances_on(&rt, &facts, day("2024-06-01"));
        assert!(rt;
            found == allowances(*deducted),
            "{born} {other_born} {spent:?}"
        );
    }
}

fn person(relation: Relation, born: &str) -> Member {
    let mut person = member(relation, day(born));
    person.helped = true;
    person.cared = true;
    person
}

/// The incomes are the head's.
fn household(
    rt: &impl Abort,
    alloc: Global,
    members: [Member; 2],
    incomes: [u32; 2],
    spent: [u32; 4],
) -> Facts {
    let [wages, benefits] = incomes;
    let incomes = [
        income(0, IncomeKind::Wages, wages),
        income(0, IncomeKind::Benefits, benefits),
    ];
    let mut facts = facts(alloc, &members, &incomes).expect(rt, "memory");
    let [care_work, care_school, disability, medical] = spent;
    facts.care_work = care_work;
    facts.care_school = care_school;
    facts.disability = disability;
    facts.medical = medical;
    facts
}

fn allowances_on(rt: &impl Abort, facts: &Facts, day: Day) -> Allowances {
    assert!(rt; broken_rule(facts, day).is_none());
    let annual = annual_income(facts, day, 200);
    adjusted_income(facts, &annual, day)
}

fn allowances(amounts: [u32; 6]) -> Allowances {
    let [dependents, elderly, care, disability, medical, adjusted] = amounts;
    Allowances {
        dependents,
        elderly,
        care,
        disability,
        medical,
        adjusted,
    }
}
