//! An office's acts, accepted and refused.

use crate::telling::{Known, act, command, tell, told};
use office_core::admission_order::{next_for, targets};
use office_core::office_acts::judge;
use office_core::office_register::Register;
use office_core::office_step::{Made, Named, Refusal};
use record_history::MOST_ACTS;
use sample_office::{
    ADMIT, APPLY, LIMITS, OTHER_UNIT, PLAN, RENTS, START, UNIT, day, month, office_day,
};
use std::alloc::Global;
use std::process::Abort;
use wait_list::{Candidate, Targets};

/// A plan, a unit, rents, and a household that is certified on the first of 2024.
const BEGUN: [&str; 4] = [PLAN, UNIT, RENTS, START];

/// The same, and then January to May are closed.
const CLOSED: [&str; 9] = [
    PLAN,
    UNIT,
    RENTS,
    START,
    "{'kind':'close','month':'2024-01'}",
    "{'kind':'close','month':'2024-02'}",
    "{'kind':'close','month':'2024-03'}",
    "{'kind':'close','month':'2024-04'}",
    "{'kind':'close','month':'2024-05'}",
];

const CLOSE_JUNE: &str = "{'kind':'close','month':'2024-06'}";

const WITHDRAW: &str = "{'household':1,'kind':'withdraw','record':2,'seen':2}";

/// What an office that was told so much answers to acts on a day.
fn tries(
    rt: &impl Abort,
    alloc: Global,
    before: &[&str],
    today: &str,
    script: &[(&str, Result<Made, Refusal>)],
) {
    let mut office = told(rt, alloc, before);
    tell(rt, alloc, &mut office, today, script);
    office.let_go();
}

fn certification(
    household: u32,
    target: u32,
    ttp: u32,
    assistance: u32,
    tenant_rent: u32,
) -> Result<Made, Refusal> {
    Ok(Made::Certified {
        assistance,
        household,
        target,
        reimbursement: 0,
        tenant_rent,
        ttp,
    })
}

fn closing(amount: i64, lines: u32, text: &str) -> Result<Made, Refusal> {
    Ok(Made::Closed {
        amount,
        lines,
        month: month(text),
    })
}

fn nobody_is_next() -> Result<Made, Refusal> {
    Err(Refusal::NotNext { next: None })
}

fn no_such(what: Named, id: u32) -> Result<Made, Refusal> {
    Err(Refusal::NoSuch { what, id })
}

fn wrong_day(text: &str) -> Result<Made, Refusal> {
    Err(Refusal::WrongDay {
        right: Some(day(text)),
    })
}

// Of three who applied alike the one of extremely low income is next, since fewer than four in ten were admitted.
#[test]
fn an_applicant_is_admitted(rt: HostRuntime) {
    let apply_25 =
        "{'accessible':false,'annual':25000,'kind':'apply','name':'Al Day','persons':1,'preferences':[],'size':1}";
    let apply_20 =
        "{'accessible':false,'annual':20000,'kind':'apply','name':'Bo Day','persons':1,'preferences':[],'size':1}";
    let before = [PLAN, UNIT, RENTS, LIMITS, apply_25, apply_20, APPLY];
    let third = Some(Candidate::Applicant(3));
    let first = "{'applicant':1,'facts':WORKER(25000),'from':'2024-02-01','kind':'admit','unit':1}";
    let other = "{'applicant':3,'facts':FACTS,'from':'2024-02-01','kind':'admit','unit':1}";
    let script = [
        (first, Err(Refusal::NotNext { next: third })),
        (other, certification(1, 1, 212, 548, 152)),
        (other, no_such(Named::Applicant, 3)),
    ];
    tries(&rt, rt.alloc(), &before, "2024-01-01", &script);
}

// The household told in time on 20 March, and its payment rises from 212 to 260.
#[test]
fn an_interim_begins_on_its_day(rt: HostRuntime) {
    let april =
        "{'done':'2024-03-25','event':'2024-03-10','facts':OTHER,'from':'2024-04-01','household':1,'kind':'interim',\
        'notice':'2024-03-20','seen':1}";
    let may =
        "{'done':'2024-03-25','event':'2024-03-10','facts':OTHER,'from':'2024-05-01','household':1,'kind':'interim',\
        'notice':'2024-03-20','seen':1}";
    let script = [
        (april, wrong_day("2024-05-01")),
        (may, certification(1, 2, 260, 500, 200)),
    ];
    tries(&rt, rt.alloc(), &BEGUN, "2024-03-25", &script);
}

// Months are closed in their order. From June on the unit's rents are others than those of the household's record.
#[test]
fn rents_are_due_before_a_closing(rt: HostRuntime) {
    let next = Some(month("2024-06"));
    let due = Refusal::RentDue {
        household: 1,
        target: 1,
        day: day("2024-06-01"),
    };
    let script = [
        (
            "{'kind':'close','month':'2024-07'}",
            Err(Refusal::WrongMonth { next }),
        ),
        (
            "{'contract_rent':720,'from':'2024-06-01','group':1,'kind':'rents','utility':60}",
            Ok(Made::Nothing),
        ),
        (CLOSE_JUNE, Err(due)),
        (
            "{'from':'2024-06-01','household':1,'kind':'gross','seen':1}",
            certification(1, 2, 212, 568, 152),
        ),
        (CLOSE_JUNE, closing(568, 1, "2024-06")),
    ];
    tries(&rt, rt.alloc(), &CLOSED, "2024-01-01", &script);
}

// Four acts fill a book for four.
#[test]
fn a_book_is_full(rt: HostRuntime) {
    let office = told(&rt, rt.alloc(), &BEGUN);
    let full = Refusal::BookFull { acts: 4 };
    assert_removal(&rt, rt.alloc(), &office.register, 4, full);
    let nobody = Refusal::NoSuch {
        what: Named::Applicant,
        id: 1,
    };
    assert_removal(&rt, rt.alloc(), &office.register, 5, nobody);
    office.let_go();
}

/// Tries to remove an applicant where the book may hold so many acts.
fn assert_removal(
    rt: &impl Abort,
    alloc: Global,
    register: &Register,
    most: u32,
    refusal: Refusal,
) {
    let asked = command(rt, alloc, "{'applicant':1,'kind':'remove'}");
    assert!(rt; most <= MOST_ACTS);
    let judged = judge(register, most, office_day("2024-01-01"), &asked);
    asked.let_go();
    assert!(rt; judged == Err(refusal));
}

// Unit 1 has a household. A unit of one bedroom is for one or two persons. The limit is 30,000; a payment of 500 is more
// than rents of 460.
#[test]
fn an_admission_is_refused(rt: HostRuntime) {
    let before = [PLAN, UNIT, RENTS, START, LIMITS, OTHER_UNIT, APPLY];
    let taken = Refusal::UnitTaken {
        household: 1,
        day: day("2024-02-01"),
    };
    let ineligible = Refusal::Ineligible {
        limit: 30_000,
        annual: 30_001,
    };
    let borne = Refusal::NoAssistance {
        ttp: 500,
        gross: 460,
    };
    let script = [
        (
            "{'applicant':1,'facts':THREE,'from':'2024-02-01','kind':'admit','unit':2}",
            Err(Refusal::SizeMisfit { unit: 2, size: 3 }),
        ),
        (
            "{'applicant':1,'facts':WORKER(20000),'from':'2024-02-01','kind':'admit','unit':1}",
            Err(taken),
        ),
        (
            "{'applicant':1,'facts':WORKER(30001),'from':'2024-02-01','kind':'admit','unit':2}",
            Err(ineligible),
        ),
        (
            "{'contract_rent':400,'from':'2024-02-01','group':1,'kind':'rents','utility':60}",
            Ok(Made::Nothing),
        ),
        (
            "{'applicant':1,'facts':WORKER(20000),'from':'2024-02-01','kind':'admit','unit':2}",
            Err(borne),
        ),
    ];
    tries(&rt, rt.alloc(), &before, "2024-01-01", &script);
}

// The household leaves after 10 April: of 548 in April 183 are left, and in May nothing. Record 3 withdraws record 2.
#[test]
fn a_household_moves_out(rt: HostRuntime) {
    let script = [
        (
            "{'household':1,'kind':'move_out','last':'2024-04-10','seen':1}",
            certification(1, 2, 0, 0, 0),
        ),
        (CLOSE_JUNE, closing(-913, 2, "2024-06")),
        (
            "{'facts':FACTS,'from':'2025-01-01','household':1,'kind':'annual','seen':2}",
            Err(Refusal::Disorder { target: 3 }),
        ),
        (WITHDRAW, certification(1, 3, 0, 0, 0)),
        (
            "{'household':1,'kind':'withdraw','record':2,'seen':3}",
            Err(Refusal::NotLive { target: 2 }),
        ),
        (
            "{'household':1,'kind':'withdraw','record':2,'seen':9}",
            Err(Refusal::Unseen { newest: 3 }),
        ),
        (WITHDRAW, Err(Refusal::Stale { newest: 3 })),
        (
            "{'household':7,'kind':'withdraw','record':2,'seen':3}",
            no_such(Named::Household, 7),
        ),
        (
            "{'facts':HEADS,'from':'2025-01-01','household':1,'kind':'annual','seen':3}",
            Err(Refusal::FactsRule { rule: 1 }),
        ),
    ];
    tries(&rt, rt.alloc(), &CLOSED, "2024-05-20", &script);
}

// A plan comes first and once; no two units have a name; rents begin by 2099; an admission wants limits.
#[test]
fn what_an_office_begins_with(rt: HostRuntime) {
    let range = Refusal::DayRange {
        first: day("2000-01-01"),
        last: day("2099-12-31"),
    };
    let limits = Refusal::NoLimits {
        day: day("2024-02-01"),
    };
    let script = [
        (UNIT, Err(Refusal::NoPlan)),
        (PLAN, Ok(Made::Nothing)),
        (PLAN, Err(Refusal::PlanGiven { act: 1 })),
        (UNIT, Ok(Made::Nothing)),
        (UNIT, Err(Refusal::NameTaken { unit: 1 })),
        (RENTS, Ok(Made::Nothing)),
        (
            "{'contract_rent':700,'from':'1999-12-31','group':1,'kind':'rents','utility':60}",
            Err(range),
        ),
        (APPLY, Ok(Made::Nothing)),
        (ADMIT, Err(limits)),
    ];
    tries(&rt, rt.alloc(), &[], "2024-01-01", &script);
}

// An annual certification is corrected, on its own day.
#[test]
fn an_annual_certification_is_corrected(rt: HostRuntime) {
    let script = [
        (
            "{'facts':FACTS,'from':'2025-01-01','household':1,'kind':'annual','seen':1}",
            certification(1, 2, 212, 548, 152),
        ),
        (
            "{'facts':FACTS,'from':'2026-01-01','household':1,'kind':'annual','seen':2}",
            certification(1, 3, 212, 548, 152),
        ),
        (
            "{'facts':OTHER,'from':'2027-01-01','household':1,'kind':'correct','record':2,'seen':3}",
            wrong_day("2025-01-01"),
        ),
        (
            "{'facts':OTHER,'from':'2025-01-01','household':1,'kind':'correct','record':2,'seen':3}",
            certification(1, 4, 260, 500, 200),
        ),
    ];
    tries(&rt, rt.alloc(), &BEGUN, "2024-01-01", &script);
}

// Assistance ends on 1 March and resumes with the month after 10 April.
#[test]
fn assistance_ends_and_resumes(rt: HostRuntime) {
    let script = [
        (
            "{'from':'2024-03-01','household':1,'kind':'terminate','seen':1}",
            certification(1, 2, 0, 0, 0),
        ),
        (
            "{'done':'2024-04-10','facts':OTHER,'from':'2024-06-01','household':1,'kind':'resume','seen':2}",
            wrong_day("2024-05-01"),
        ),
        (
            "{'done':'2024-04-10','facts':OTHER,'from':'2024-05-01','household':1,'kind':'resume','seen':2}",
            certification(1, 3, 260, 500, 200),
        ),
    ];
    tries(&rt, rt.alloc(), &BEGUN, "2024-04-10", &script);
}

// A household moves where it asked to. Once it moved, it is no longer next.
#[test]
fn a_household_moves(rt: HostRuntime) {
    let before = [PLAN, UNIT, RENTS, START, OTHER_UNIT];
    let ask = "{'accessible':false,'household':1,'kind':'ask_transfer','wanted':true}";
    let there = "{'from':'2024-03-01','household':1,'kind':'transfer','seen':1,'unit':2}";
    let back = "{'from':'2024-04-01','household':1,'kind':'transfer','seen':2,'unit':1}";
    let script = [
        (there, nobody_is_next()),
        (ask, Ok(Made::Nothing)),
        (there, certification(1, 2, 212, 548, 152)),
        (back, nobody_is_next()),
        (ask, Ok(Made::Nothing)),
        (back, certification(1, 3, 212, 548, 152)),
    ];
    tries(&rt, rt.alloc(), &before, "2024-01-01", &script);
}

// A change that is told late is paid back by the next closing, and paid again once its record is withdrawn.
#[test]
fn an_interim_comes_late_and_is_withdrawn(rt: HostRuntime) {
    let interim =
        "{'done':'2024-05-20','event':'2024-01-20','facts':OTHER,'from':'2024-03-01','household':1,'kind':'interim',\
        'notice':'2024-01-25','seen':1}";
    let script = [
        (interim, certification(1, 2, 260, 500, 200)),
        (CLOSE_JUNE, closing(356, 4, "2024-06")),
        (WITHDRAW, certification(1, 3, 0, 0, 0)),
        (
            "{'kind':'close','month':'2024-07'}",
            closing(740, 5, "2024-07"),
        ),
    ];
    tries(&rt, rt.alloc(), &CLOSED, "2024-05-20", &script);
}

/// Whether the office closes the month.
fn closes(rt: &impl Abort, alloc: Global, office: &mut Known, month: &str) -> bool {
    let text = format!(in alloc; "{{'kind':'close','month':'{month}'}}").expect(rt, "memory");
    act(rt, alloc, office, "2024-01-01", &text).is_ok()
}

// The certification of January 2024 serves to March 2025.
#[test]
fn a_household_is_overdue(rt: HostRuntime) {
    let mut office = told(&rt, rt.alloc(), &CLOSED);
    for month in [
        "2024-06", "2024-07", "2024-08", "2024-09", "2024-10", "2024-11", "2024-12", "2025-01",
        "2025-02", "2025-03",
    ] {
        assert!(rt; closes(&rt, rt.alloc(), &mut office, month), "{month}");
    }
    let late = Refusal::Overdue {
        household: 1,
        anniversary: day("2025-01-01"),
    };
    let script = [("{'kind':'close','month':'2025-04'}", Err(late))];
    tell(&rt, rt.alloc(), &mut office, "2024-01-01", &script);
    office.let_go();
}

// An applicant with 9,600 is of extremely low income. The fiscal year ends with December.
#[test]
fn admissions_are_counted(rt: HostRuntime) {
    let mut office = told(&rt, rt.alloc(), &[PLAN, UNIT, RENTS, LIMITS, APPLY]);
    let first = Some(Candidate::Applicant(1));
    assert_next(&rt, &office, "2024-02-01", first);
    let script = [(ADMIT, certification(1, 1, 212, 548, 152))];
    tell(&rt, rt.alloc(), &mut office, "2024-01-01", &script);
    assert_next(&rt, &office, "2024-02-01", None);
    assert_admitted(&rt, &office);
    office.let_go();
}

fn assert_admitted(rt: &impl Abort, office: &Known) {
    for (text, admitted) in [
        ("2023-12-31", 0),
        ("2024-01-01", 1),
        ("2024-12-31", 1),
        ("2025-01-01", 0),
    ] {
        let counted = counted_on(rt, &office.register, text);
        assert!(rt; counted.expected == 10 && counted.method == 1);
        assert!(rt;
            counted.admitted == admitted && counted.extremely == admitted,
            "{text}"
        );
    }
}

fn counted_on(rt: &impl Abort, register: &Register, text: &str) -> Targets {
    let plan = register.plan().expect(rt, "a plan");
    targets(register, plan, day(text))
}

fn assert_next(rt: &impl Abort, office: &Known, text: &str, next: Option<Candidate>) {
    let register = &office.register;
    let plan = register.plan().expect(rt, "a plan");
    let unit = register.table().unit(1).expect(rt, "a unit");
    assert!(rt; unit.bedrooms <= 5);
    assert!(rt; next_for(register, plan, unit, day(text)) == next);
}
