//! What facts come to.

use certified_figures::{Figures, figures_carried, figures_of_facts, no_figures};
use days_core::Day;
use facts_core::{Facts, IncomeKind, Relation, broken_rule};
use record_history::Kind;
use sample_office::{day, facts, income, member, record, rents};
use std::alloc::Global;
use std::process::Abort;

const PASSBOOK: u32 = 200;

/// Who lives with the head, its benefits, the medical expenses and whether it is exempt, and then how many persons and
/// members there are, the adjusted income, the total tenant payment and the assistance.
type FiguresCase = (Option<Relation>, [u32; 2], bool, [u32; 5]);

// At a contract rent of 700 and utilities of 60 the gross rent is 760. Of 9,600 three percent are 288: 9,600 - 400 -
// 712 = 8,488, and 8,488 / 40 = 212.2. 10,800 - 400 = 10,400, and 10,400 / 40 = 260. An aide is a person and no
// member. Nothing earned is the minimum rent of 25, or 0. 40,000 - 400 = 39,600, and 39,600 / 40 = 990 is above 760.
const FIGURES: [FiguresCase; 7] = [
    (None, [9_600, 1_000], false, [1, 1, 8_488, 212, 548]),
    (None, [10_800, 0], false, [1, 1, 10_400, 260, 500]),
    (
        Some(Relation::Aide),
        [10_800, 0],
        false,
        [2, 1, 10_400, 260, 500],
    ),
    (
        Some(Relation::Spouse),
        [10_800, 0],
        false,
        [2, 2, 10_400, 260, 500],
    ),
    (None, [0, 0], false, [1, 1, 0, 25, 735]),
    (None, [0, 0], true, [1, 1, 0, 0, 760]),
    (None, [40_000, 0], false, [1, 1, 39_600, 990, 0]),
];

#[test]
fn facts_come_to_figures(rt: HostRuntime) {
    for (other, [benefits, medical], exempt, wanted) in &FIGURES {
        let mut facts = household(&rt, rt.alloc(), *other, *benefits);
        facts.medical = *medical;
        facts.exempt = *exempt;
        let found = figures_on(&rt, &facts, day("2024-01-01"));
        assert!(rt;
            found == figures(*benefits, *wanted),
            "{benefits} {wanted:?}"
        );
    }
}

// Half of 500 is 250, and an aide's flag says nothing of the family.
#[test]
fn a_part_goes_by_the_eligible_members(rt: HostRuntime) {
    for (relation, wanted) in &[
        (Relation::Spouse, [2, 2, 10_400, 260, 250]),
        (Relation::Aide, [2, 1, 10_400, 260, 500]),
    ] {
        let mut other = member(*relation, day("1953-06-01"));
        other.eligible = false;
        let head = member(Relation::Head, day("1953-06-01"));
        let incomes = [income(0, IncomeKind::Benefits, 10_800)];
        let facts = facts(rt.alloc(), &[head, other], &incomes).expect(&rt, "memory");
        let found = figures_on(&rt, &facts, day("2024-01-01"));
        assert!(rt; found == figures(10_800, *wanted), "{wanted:?}");
    }
}

#[test]
fn some_member_of_the_family_is_eligible(rt: HostRuntime) {
    let mut head = member(Relation::Head, day("1953-06-01"));
    head.eligible = false;
    let aide = member(Relation::Aide, day("1953-06-01"));
    let facts = facts(rt.alloc(), &[head, aide], &[]).expect(&rt, "memory");
    assert!(rt; broken_rule(&facts, day("2024-01-01")) == Some(8));
}

/// A head of 70 on benefits, who may live with another.
fn household(rt: &impl Abort, alloc: Global, other: Option<Relation>, benefits: u32) -> Facts {
    let born = day("1953-06-01");
    let head = member(Relation::Head, born);
    let incomes = [income(0, IncomeKind::Benefits, benefits)];
    let found = match other {
        Some(relation) => facts(alloc, &[head, member(relation, born)], &incomes),
        None => facts(alloc, &[head], &incomes),
    };
    found.expect(rt, "memory")
}

fn figures_on(rt: &impl Abort, facts: &Facts, day: Day) -> Figures {
    assert!(rt; broken_rule(facts, day).is_none());
    let rents = rents(700);
    assert!(rt; rents.contract_rent <= 99_999 && rents.utility <= 9_999);
    figures_of_facts(facts, day, PASSBOOK, rents)
}

fn figures(annual: u32, amounts: [u32; 5]) -> Figures {
    let [persons, size, adjusted, ttp, assistance] = amounts;
    Figures {
        persons,
        size,
        annual,
        adjusted,
        ttp,
        rents: rents(700),
        assistance,
    }
}

// A payment of 212 leaves 780 - 212 = 568 of the rents of 720 and 60, and nothing of 152 and 60.
#[test]
fn figures_are_carried(rt: HostRuntime) {
    let mut held = record(1, 1, 4, Kind::IC, day("2024-01-01"));
    held.persons = 2;
    let (raised, lowered) = (rents(720), rents(152));
    assert!(rt; raised.contract_rent <= 99_999 && raised.utility <= 9_999);
    assert!(rt; lowered.contract_rent <= 99_999 && lowered.utility <= 9_999);
    let mut expected = figures(9_600, [2, 1, 8_488, 212, 568]);
    expected.rents = raised;
    assert!(rt; held.size == 1);
    assert!(rt; figures_carried(&held, 1, raised) == expected);
    assert!(rt; figures_carried(&held, 1, lowered).assistance == 0);
    let mut nothing = figures(0, [0, 0, 0, 0, 0]);
    nothing.rents.contract_rent = 0;
    nothing.rents.utility = 0;
    assert!(rt; no_figures() == nothing);
}
