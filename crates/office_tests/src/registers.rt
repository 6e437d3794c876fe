//! What a register knows.

use crate::telling::told;
use office_core::office_register::Register;
use office_core::office_step::Closed;
use rent_table::RentTable;
use sample_office::{RENTS, UNIT, day, month};
use std::alloc::Global;
use std::process::Abort;
use wait_list::Applicant;

const LIMITS: &str =
    "{'extremely_low':[0,0,0,0,0,0,0,0,0,0,0,7],'from':'2024-01-01','kind':'limits',\
    'low':[1,2,3,4,5,6,7,8,9,10,11,12],'very_low':[1,1,1,1,1,1,1,1,1,1,1,9]}";

/// The plan with a fiscal year from October, by whose ranks of preferences the second counts most.
const OTHER_PLAN: &str =
    "{'bounds':[[1,1],[1,2],[2,4],[3,6],[4,8],[5,10]],'early':false,'expected':10,'first':'2024-01','fiscal_month':10,\
    'kind':'plan','method':1,'passbook':200,'ranks':[3,1],'report_days':30}";

const LARGER_UNIT: &str = "{'accessible':true,'bedrooms':2,'group':2,'kind':'unit','name':'A-102'}";

/// The plan, two units, rents and limits.
const BEGUN: [&str; 5] = [OTHER_PLAN, UNIT, LARGER_UNIT, RENTS, LIMITS];

#[test]
fn what_the_property_is(rt: HostRuntime) {
    let office = told(&rt, rt.alloc(), &BEGUN);
    assert_plan(&rt, &office.register);
    assert_units(&rt, office.register.table());
    assert_limits(&rt, office.register.table());
    office.let_go();
}

fn assert_plan(rt: &impl Abort, register: &Register) {
    let reported = register.plan().map(|plan| plan.report_days);
    assert!(rt; register.count() == 5);
    assert!(rt; register.plan_act() == Some(1) && reported == Some(30));
}

fn assert_units(rt: &impl Abort, table: &RentTable) {
    let from = day("2024-01-01");
    let bedrooms = table.unit(2).map(|unit| unit.bedrooms);
    let utility = table.rents_on(1, from).map(|rents| rents.utility);
    assert!(rt; bedrooms == Some(2) && table.unit(3).is_none());
    assert!(rt; utility == Some(60) && table.rents_on(2, from).is_none());
    assert!(rt; table.rent_rows().len() == 1);
}

fn assert_limits(rt: &impl Abort, table: &RentTable) {
    let limits = table.limits_on(day("2024-01-01")).expect(rt, "limits");
    assert!(rt; limits.very_low[11] == 9 && limits.act == 5);
}

/// Of Cy Long, who is removed, Ann Poe and Ed Fry.
const APPLIED: [&str; 9] = [
    OTHER_PLAN,
    UNIT,
    LARGER_UNIT,
    RENTS,
    LIMITS,
    "{'accessible':true,'annual':14000,'kind':'apply','name':'Cy Long','persons':3,'preferences':[1,2],'size':2}",
    "{'accessible':false,'annual':9600,'kind':'apply','name':'Ann Poe','persons':1,'preferences':[],'size':1}",
    "{'applicant':1,'kind':'remove'}",
    "{'accessible':false,'annual':0,'kind':'apply','name':'Ed Fry','persons':1,'preferences':[2],'size':1}",
];

// By the plan's ranks of preferences, 3 for the first and 1 for the second, the first applicant's best rank is 1, and that
// of one without preferences is 100. An applicant who was removed keeps its number.
#[test]
fn who_applied_and_who_waits(rt: HostRuntime) {
    let office = told(&rt, rt.alloc(), &APPLIED);
    assert_two_wait(&rt, &office.register);
    assert_nobody_lives_there(&rt, &office.register);
    office.let_go();
}

fn assert_two_wait(rt: &impl Abort, register: &Register) {
    let waiting = register.list().applicants();
    assert!(rt; waiting.len() == 2);
    assert_waits(rt, &waiting[0], 2, 7, 100);
    assert_waits(rt, &waiting[1], 3, 9, 1);
}

fn assert_waits(rt: &impl Abort, applicant: &Applicant, number: u32, act: u32, rank: u32) {
    assert!(rt; applicant.number == number && applicant.act == act && applicant.rank == rank);
}

fn assert_nobody_lives_there(rt: &impl Abort, register: &Register) {
    assert!(rt; register.applications().len() == 3);
    assert!(rt; register.households() == 0 && register.household_name(1).is_none());
}

const CLOSED: [&str; 7] = [
    OTHER_PLAN,
    UNIT,
    LARGER_UNIT,
    RENTS,
    LIMITS,
    "{'kind':'close','month':'2024-01'}",
    "{'kind':'close','month':'2024-02'}",
];

#[test]
fn which_month_was_closed(rt: HostRuntime) {
    let last = Closed {
        month: month("2024-02"),
        act: 7,
    };
    assert!(rt; closing(&rt, rt.alloc(), &BEGUN).is_none());
    assert!(rt; closing(&rt, rt.alloc(), &CLOSED) == Some(last));
}

fn closing(rt: &impl Abort, alloc: Global, texts: &[&str]) -> Option<Closed> {
    told(rt, alloc, texts).register.closing()
}
