//! The answers to questions.

use crate::offices::{let_go, told};
use office_core::Office;
use office_core::office_answers::{
    Admissions, Answer, Asked, DueDay, HouseholdSummary, Question, Voucher,
};
use office_core::office_step::{Named, Refusal};
use plain_data::Listed;
use record_history::{Kind, Record};
use sample_office::{
    ADMIT, APPLY, CLOSE_JANUARY, LIMITS, OTHER_UNIT, PLAN, RENTS, START, UNIT, day, month, text,
};
use std::alloc::Global;
use std::process::Abort;
use wait_list::Candidate;

const FEBRUARY: &str = "{'kind':'close','month':'2024-02'}";

const MARCH: &str = "{'kind':'close','month':'2024-03'}";

const MOVE_OUT: &str = "{'household':1,'kind':'move_out','last':'2024-02-10','seen':1}";

const WITHDRAW: &str = "{'household':1,'kind':'withdraw','record':2,'seen':2}";

/// Asks, and compares the answer.
fn expect(
    rt: &impl Abort,
    alloc: Global,
    office: &Office,
    question: Question,
    wanted: Result<Answer, Asked>,
) {
    let answer = office.ask(alloc, &question);
    assert!(rt; answer == wanted, "{question:?}: {answer:?}");
}

fn expect_refusal(
    rt: &impl Abort,
    alloc: Global,
    office: &Office,
    question: Question,
    refusal: Refusal,
) {
    expect(rt, alloc, office, question, Err(Asked::Refused(refusal)));
}

fn no_such(what: Named, id: u32) -> Refusal {
    Refusal::NoSuch { what, id }
}

fn expect_paid(rt: &impl Abort, alloc: Global, office: &Office, text: &str, paid: i64) {
    let question = Question::Paid {
        household: 1,
        month: month(text),
    };
    expect(rt, alloc, office, question, Ok(Answer::Paid(paid)));
}

/// No closing of the month was made.
fn expect_open(rt: &impl Abort, alloc: Global, office: &Office, text: &str) {
    let question = Question::Voucher { month: month(text) };
    expect(rt, alloc, office, question, Ok(Answer::Voucher(None)));
}

/// How many lines the closing of the month had, and what it requested, changed and comes to.
fn expect_voucher(
    rt: &impl Abort,
    alloc: Global,
    office: &Office,
    text: &str,
    wanted: (usize, i64, i64, i64),
) {
    let question = Question::Voucher { month: month(text) };
    match &office.ask(alloc, &question) {
        Ok(Answer::Voucher(Some(voucher))) => assert!(rt; parts_of(voucher) == wanted),
        _ => panic!(rt; "not closed"),
    }
}

fn parts_of(voucher: &Voucher) -> (usize, i64, i64, i64) {
    (
        voucher.lines.as_slice().len(),
        voucher.requested,
        voucher.adjustments,
        voucher.total,
    )
}

// Only what is asked of the plan, or of something that isn't there, is refused.
#[test]
fn nothing_is_known_before_the_first_act(rt: HostRuntime) {
    let none = told(&rt, rt.alloc(), &[]);
    expect_no_plan(&rt, rt.alloc(), &none);
    expect_nobody(&rt, rt.alloc(), &none);
    expect_open(&rt, rt.alloc(), &none, "2024-01");
    let_go(none);
}

fn expect_no_plan(rt: &impl Abort, alloc: Global, none: &Office) {
    let day = day("2024-01-01");
    for question in &[
        Question::Next { unit: 1, day },
        Question::Due { day },
        Question::Targets { day },
    ] {
        expect_refusal(rt, alloc, none, *question, Refusal::NoPlan);
    }
}

fn expect_nobody(rt: &impl Abort, alloc: Global, none: &Office) {
    let month = month("2024-01");
    let household = 1;
    let target = 1;
    for question in &[
        Question::Household { household },
        Question::Record { household, target },
        Question::Paid { household, month },
    ] {
        let nobody = no_such(Named::Household, 1);
        expect_refusal(rt, alloc, none, *question, nobody);
    }
}

// The household pays 212 of 760, so 548 are claimed for it. No other month is closed.
#[test]
fn a_household_is_paid(rt: HostRuntime) {
    let office = told(&rt, rt.alloc(), &[PLAN, UNIT, RENTS, START, CLOSE_JANUARY]);
    expect_january(&rt, rt.alloc(), &office);
    let_go(office);
}

fn expect_january(rt: &impl Abort, alloc: Global, office: &Office) {
    expect_voucher(rt, alloc, office, "2024-01", (1, 548, 0, 548));
    expect_paid(rt, alloc, office, "2024-01", 548);
    for text in &["2023-12", "2024-02"] {
        expect_paid(rt, alloc, office, *text, 0);
        expect_open(rt, alloc, office, *text);
    }
}

// Ten of the 29 days of February take 189 of 548, so 359 are taken back when March is closed, and nothing is claimed.
#[test]
fn a_month_is_set_right(rt: HostRuntime) {
    let texts = [
        PLAN,
        UNIT,
        RENTS,
        START,
        CLOSE_JANUARY,
        FEBRUARY,
        MOVE_OUT,
        MARCH,
    ];
    let office = told(&rt, rt.alloc(), &texts);
    expect_voucher(&rt, rt.alloc(), &office, "2024-03", (1, 0, -359, -359));
    expect_paid(&rt, rt.alloc(), &office, "2024-02", 189);
    let_go(office);
}

// The second record is the move-out, from the day after the last. The third withdraws it, so the first alone counts.
#[test]
fn a_household_and_its_records(rt: HostRuntime) {
    let texts = [PLAN, UNIT, RENTS, START, MOVE_OUT, WITHDRAW];
    let office = told(&rt, rt.alloc(), &texts);
    expect_household(&rt, rt.alloc(), &office);
    expect_move_out(&rt, rt.alloc(), &office);
    expect_no_record(&rt, rt.alloc(), &office, 0);
    expect_no_record(&rt, rt.alloc(), &office, 4);
    let_go(office);
}

fn expect_household(rt: &impl Abort, alloc: Global, office: &Office) {
    let live = [1u32].to_vec(alloc).expect(rt, "memory");
    let summary = HouseholdSummary {
        household: 1,
        name: text(alloc, "Ada Reed").expect(rt, "memory"),
        live: Listed::new(live),
        newest: 3,
    };
    let question = Question::Household { household: 1 };
    expect(rt, alloc, office, question, Ok(Answer::Household(summary)));
}

fn expect_move_out(rt: &impl Abort, alloc: Global, office: &Office) {
    let question = Question::Record {
        household: 1,
        target: 2,
    };
    match &office.ask(alloc, &question) {
        Ok(Answer::Record(held)) => assert_move_out(rt, held),
        _ => panic!(rt; "no record"),
    }
}

fn assert_move_out(rt: &impl Abort, held: &Record) {
    assert!(rt; held.number == 2 && held.act == 5 && held.kind == Kind::MO);
    assert!(rt; held.from == day("2024-02-11"));
}

fn expect_no_record(rt: &impl Abort, alloc: Global, office: &Office, target: u32) {
    let question = Question::Record {
        household: 1,
        target,
    };
    let nothing = no_such(Named::Record, target);
    expect_refusal(rt, alloc, office, question, nothing);
}

const JUNE: &str = "{'facts':FACTS,'from':'2024-06-01','kind':'start','name':'Bo Day','unit':1}";

const THERE: &str = "{'facts':FACTS,'from':'2024-01-01','kind':'start','name':'Ada Reed','unit':2}";

/// Asks who is due, seen from the day.
fn expect_due(rt: &impl Abort, alloc: Global, office: &Office, seen_from: &str, wanted: &[DueDay]) {
    let question = Question::Due {
        day: day(seen_from),
    };
    let due = Listed::new(wanted.to_vec(alloc).expect(rt, "memory"));
    expect(rt, alloc, office, question, Ok(Answer::Due(due)));
}

fn due(text: &str, household: u32) -> DueDay {
    DueDay {
        day: day(text),
        household,
    }
}

#[test]
fn who_is_due(rt: HostRuntime) {
    let office = told(
        &rt,
        rt.alloc(),
        &[PLAN, UNIT, OTHER_UNIT, RENTS, JUNE, THERE],
    );
    expect_two_due(&rt, rt.alloc(), &office);
    let_go(office);
}

// The first household is due on 1 June 2025, 120 days after 1 February, and the second was due on 1 January, 120 days
// after 3 September.
fn expect_two_due(rt: &impl Abort, alloc: Global, office: &Office) {
    let dues = [due("2025-01-01", 2), due("2025-06-01", 1)];
    expect_due(rt, alloc, office, "2025-02-01", &dues);
    expect_due(rt, alloc, office, "2025-01-31", &dues[..1]);
    expect_due(rt, alloc, office, "2024-09-03", &dues[..1]);
    expect_due(rt, alloc, office, "2024-09-02", &[]);
}

#[test]
fn who_moved_out_is_not_due(rt: HostRuntime) {
    let office = told(&rt, rt.alloc(), &[PLAN, UNIT, RENTS, START, MOVE_OUT]);
    expect_due(&rt, rt.alloc(), &office, "2025-01-01", &[]);
    let_go(office);
}

const OCTOBER: &str =
    "{'bounds':[[1,1],[1,2],[2,4],[3,6],[4,8],[5,10]],'early':false,'expected':2,'first':'2024-01','fiscal_month':10,\
    'kind':'plan','method':1,'passbook':200,'ranks':[],'report_days':30}";

const YEARS: [(&str, &str, u32); 6] = [
    ("2023-09-30", "2022-10-01", 0),
    ("2023-10-01", "2023-10-01", 1),
    ("2024-09-30", "2023-10-01", 1),
    ("2024-10-01", "2024-10-01", 0),
    ("1880-09-30", "1880-01-01", 0),
    ("1880-10-01", "1880-10-01", 0),
];

// Of the two admissions that are expected from October to September, one was of extremely low income: 10 is above 8.
#[test]
fn admissions_of_a_fiscal_year(rt: HostRuntime) {
    let office = told(
        &rt,
        rt.alloc(),
        &[OCTOBER, UNIT, RENTS, LIMITS, APPLY, ADMIT],
    );
    expect_years(&rt, rt.alloc(), &office);
    let_go(office);
}

fn expect_years(rt: &impl Abort, alloc: Global, office: &Office) {
    for (text, first_day, admitted) in &YEARS {
        let admissions = Admissions {
            first_day: day(*first_day),
            expected: 2,
            admitted: *admitted,
            extremely_low: *admitted,
            opened: *admitted == 0,
        };
        let question = Question::Targets { day: day(*text) };
        expect(rt, alloc, office, question, Ok(Answer::Targets(admissions)));
    }
}

// Limits stand from 1 January on; before that nobody could be admitted.
#[test]
fn who_is_next(rt: HostRuntime) {
    let office = told(&rt, rt.alloc(), &[PLAN, UNIT, RENTS, LIMITS, APPLY]);
    expect_next(&rt, rt.alloc(), &office, "2023-12-31", None);
    let first = Some(Candidate::Applicant(1));
    expect_next(&rt, rt.alloc(), &office, "2024-01-01", first);
    let elsewhere = next_for(2, "2024-01-01");
    expect_refusal(&rt, rt.alloc(), &office, elsewhere, no_such(Named::Unit, 2));
    let_go(office);
}

fn next_for(unit: u32, text: &str) -> Question {
    Question::Next {
        unit,
        day: day(text),
    }
}

fn expect_next(
    rt: &impl Abort,
    alloc: Global,
    office: &Office,
    text: &str,
    next: Option<Candidate>,
) {
    expect(rt, alloc, office, next_for(1, text), Ok(Answer::Next(next)));
}
