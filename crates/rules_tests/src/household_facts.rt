//! The facts of a household.

use days_core::Day;
use facts_core::{
    Facts, IncomeKind, Member, Relation, broken_rule, facts_of_value, value_of_facts,
};
use json_form::{FormFault, value_of_bytes};
use plain_data::Listed;
use sample_office::{day, facts, income, member, written};
use serde_json::Value;
use std::alloc::Global;
use std::process::Abort;

/// The sample's household, with its members first.
const FACTS: &str =
    "{'members':[{'relation':'Head','born':'1953-06-01','disabled':false,'student':false,'helped':false,'cared':false}],\
    'incomes':[{'member':0,'kind':'Benefits','annual':9600}],'assets':[],'disposals':[],'care_work':0,'care_school':0,\
    'disability':0,'medical':1000,'welfare':0,'exempt':false}";

fn value(rt: &impl Abort, alloc: Global, text: &str) -> Value {
    let text = written(alloc, text).expect(rt, "memory");
    value_of_bytes(alloc, text.as_bytes()).expect(rt, "a value")
}

/// The household's value, once a part of its text is changed.
fn changed(rt: &impl Abort, alloc: Global, old: &str, new: &str) -> Value {
    let text = FACTS.replace(alloc, old, new).expect(rt, "memory");
    value(rt, alloc, &text)
}

fn facts_of(rt: &impl Abort, alloc: Global, value: &Value) -> Facts {
    facts_of_value(alloc, value).expect(rt, "facts")
}

#[test]
fn reads_the_facts(rt: HostRuntime) {
    let alloc = rt.alloc();
    let found = facts_of(&rt, alloc, &value(&rt, alloc, FACTS));
    let head = member(Relation::Head, day("1953-06-01"));
    let benefits = income(0, IncomeKind::Benefits, 9_600);
    let mut wanted = facts(alloc, &[head], &[benefits]).expect(&rt, "memory");
    wanted.medical = 1_000;
    assert!(rt; found == wanted);
}

fn is_bad_at(alloc: Global, value: &Value, path: &str) -> bool {
    match facts_of_value(alloc, value) {
        Err(FormFault::BadField(found)) => found.as_str() == path,
        _ => false,
    }
}

const PATHS: [(&str, &str, &str); 13] = [
    ("1953-06-01", "1953-06-31", "members[0].born"),
    ("'Head'", "'head'", "members[0].relation"),
    ("'cared':false", "'cared':false,'age':70", "members[0].?"),
    ("'exempt'", "'spare':0,'exempt'", "?"),
    ("'welfare'", "'welfares'", "welfare"),
    ("1000", "1000.0", "medical"),
    ("1000", "-0", "medical"),
    ("1000", "1e2", "medical"),
    ("1000", "4294967296", "medical"),
    ("9600}]", "9600}],'incomes':{}", "incomes"),
    (
        "9600}]",
        "9600},{'member':0,'kind':'Benefit'}]",
        "incomes[1].kind",
    ),
    ("'assets':[]", "'assets':[{'value':1}]", "assets[0].income"),
    (
        "'disposals':[]",
        "'disposals':[{'day':'1879-12-31'}]",
        "disposals[0].day",
    ),
];

#[test]
fn tells_the_first_bad_path(rt: HostRuntime) {
    let alloc = rt.alloc();
    for (old, new, path) in &PATHS {
        let value = changed(&rt, alloc, *old, *new);
        assert!(rt; is_bad_at(alloc, &value, *path), "{new}");
    }
}

fn text_of(rt: &impl Abort, alloc: Global, facts: &Facts) -> String {
    let value = value_of_facts(alloc, facts).expect(rt, "memory");
    value.to_string(alloc).expect(rt, "memory")
}

#[test]
fn writes_what_it_read(rt: HostRuntime) {
    let alloc = rt.alloc();
    let found = facts_of(&rt, alloc, &value(&rt, alloc, FACTS));
    let text = text_of(&rt, alloc, &found);
    let wanted = written(alloc, sample_office::FACTS).expect(&rt, "memory");
    assert!(rt; text.as_str() == wanted.as_str());
    let again = facts_of(&rt, alloc, &value(&rt, alloc, &text));
    assert!(rt; again == found);
}

const RULES: [(&str, &str, Option<u8>); 12] = [
    ("Head", "Head", None),
    // A member 1 is not there.
    ("'member':0", "'member':1", Some(3)),
    ("9600", "9999999", None),
    ("9600", "10000000", Some(4)),
    ("1000,", "10000000,", Some(4)),
    (
        "'assets':[]",
        "'assets':[{'value':0,'income':10000000}]",
        Some(4),
    ),
    (
        "'disposals':[]",
        "'disposals':[{'day':'2024-01-01','value':10000000,'received':0}]",
        Some(4),
    ),
    (
        "'disposals':[]",
        "'disposals':[{'day':'2024-01-01','value':500,'received':500}]",
        None,
    ),
    (
        "'disposals':[]",
        "'disposals':[{'day':'2024-01-01','value':500,'received':501}]",
        Some(5),
    ),
    ("1953-06-01", "2024-06-01", None),
    ("1953-06-01", "2024-06-02", Some(7)),
    // Rules 1 and 7 are broken.
    (
        "Head','born':'1953-06-01",
        "Other','born':'2024-06-02",
        Some(1),
    ),
];

#[test]
fn tells_the_broken_rule(rt: HostRuntime) {
    let alloc = rt.alloc();
    for (old, new, rule) in &RULES {
        let facts = facts_of(&rt, alloc, &changed(&rt, alloc, *old, *new));
        assert!(rt; broken_rule(&facts, day("2024-06-01")) == *rule, "{new}");
    }
}

/// How many heads, spouses, co-heads, others and aides there are, and the rule that is broken.
const COUNTS: [([usize; 5], Option<u8>); 13] = [
    ([0, 1, 0, 1, 0], Some(1)),
    ([2, 0, 0, 0, 0], Some(1)),
    ([1, 1, 0, 0, 0], None),
    ([1, 0, 1, 0, 0], None),
    ([1, 1, 1, 0, 0], Some(2)),
    ([1, 2, 0, 0, 0], Some(2)),
    // 12 of the family, and 13
    ([1, 0, 0, 11, 0], None),
    ([1, 0, 0, 12, 0], Some(6)),
    // 12 of the family and an aide, and 13 and an aide
    ([1, 0, 0, 11, 1], None),
    ([1, 0, 0, 12, 1], Some(6)),
    // 16 members in all, and 17
    ([1, 0, 0, 11, 4], None),
    ([1, 0, 0, 11, 5], Some(6)),
    // Rules 2 and 6 are broken.
    ([1, 1, 1, 11, 0], Some(2)),
];

#[test]
fn counts_the_members(rt: HostRuntime) {
    let alloc = rt.alloc();
    for (counts, rule) in &COUNTS {
        let members = members_of(&rt, alloc, *counts);
        let mut facts = facts_of(&rt, alloc, &value(&rt, alloc, FACTS));
        facts.members = Listed::new(members);
        assert!(rt;
            broken_rule(&facts, day("2024-06-01")) == *rule,
            "{counts:?}"
        );
    }
}

fn members_of(rt: &impl Abort, alloc: Global, counts: [usize; 5]) -> Vec<Member> {
    let [heads, spouses, coheads, others, aides] = counts;
    let mut members = Vec::new(alloc);
    assert!(rt; add(&mut members, Relation::Head, heads));
    assert!(rt; add(&mut members, Relation::Spouse, spouses));
    assert!(rt; add(&mut members, Relation::Cohead, coheads));
    assert!(rt; add(&mut members, Relation::Other, others));
    assert!(rt; add(&mut members, Relation::Aide, aides));
    members
}

fn add(members: &mut Vec<Member>, relation: Relation, count: usize) -> bool {
    for _ in 0..count {
        if !add_one(members, member(relation, day("2000-01-01"))) {
            return false;
        }
    }
    true
}

fn add_one(members: &mut Vec<Member>, one: Member) -> bool {
    // The check of the move below refuses a type that the function doesn't name.
    let _relation: Relation = one.relation;
    let _born: Day = one.born;
    members.push(one).is_ok()
}
