//! The program's reports.

use crate::runs::{act, five_months, ran};
use book_rows::Table;
use keeper_core::{DamagedKeeper, Keeper, MemoryKeeper, PlannedKeeper};
use run_harness::{Told, Trial, without_fault};
use sample_office::{ADMIT, APPLY, LIMITS, PLAN, RENTS, UNIT};
use std::alloc::Global;
use std::process::Abort;

/// The household of one of 70 with benefits of 10,800 and no costs from March 2024 on, told late: it pays 260 in place of 212.
const LATE_INTERIM: &str =
    "{'done':'2024-05-20','event':'2024-01-20','facts':{'assets':[],'care_school':0,'care_work':0,'disability':0,\
    'disposals':[],'exempt':false,'incomes':[{'annual':10800,'kind':'Benefits','member':0}],'medical':0,\
    'members':[{'born':'1953-06-01','cared':false,'disabled':false,'helped':false,'relation':'Head','student':false}],\
    'welfare':0},'from':'2024-03-01','household':1,'kind':'interim','notice':'2024-01-25','seen':1}";

const CLOSE_JUNE: &str = "{'kind':'close','month':'2024-06'}";

/// Five months of 548; then three months of 48 less, and June for 500.
const LINES: &str = "closing,household,for_month,first,last,old,new,amount\n\
    2024-01,1,2024-01,2024-01-01,2024-01-31,0,1,548\n\
    2024-02,1,2024-02,2024-02-01,2024-02-29,0,1,548\n\
    2024-03,1,2024-03,2024-03-01,2024-03-31,0,1,548\n\
    2024-04,1,2024-04,2024-04-01,2024-04-30,0,1,548\n\
    2024-05,1,2024-05,2024-05-01,2024-05-31,0,1,548\n\
    2024-06,1,2024-03,2024-03-01,2024-03-31,1,2,-48\n\
    2024-06,1,2024-04,2024-04-01,2024-04-30,1,2,-48\n\
    2024-06,1,2024-05,2024-05-01,2024-05-31,1,2,-48\n\
    2024-06,1,2024-06,2024-06-01,2024-06-30,0,2,500\n";

const COLUMNS: &str = "closing,household,for_month,first,last,old,new,amount\n";

/// What the words are answered with, of the keeper's book.
fn told<K: Keeper>(rt: &impl Abort, alloc: Global, keeper: &mut K, words: &str) -> Told {
    ran(rt, alloc, keeper, &without_fault(words), b"left unread")
}

#[test]
fn a_retroactive_interim_is_exported(rt: HostRuntime) {
    let alloc = rt.alloc();
    let mut keeper = MemoryKeeper::new(alloc);
    five_months(&rt, alloc, &mut keeper);
    let acts = [LATE_INTERIM, CLOSE_JUNE];
    assert!(rt; act(&rt, alloc, &mut keeper, "2024-05-20", 21, &acts).has_lines(0, 2));
    assert!(rt; told(&rt, alloc, &mut keeper, "export").is(0, LINES));
}

#[test]
fn the_annual_of_january_is_due_in_september(rt: HostRuntime) {
    let alloc = rt.alloc();
    let mut keeper = MemoryKeeper::new(alloc);
    five_months(&rt, alloc, &mut keeper);
    let due = "2025-01-01 household 1\n";
    assert!(rt; told(&rt, alloc, &mut keeper, "due 2024-09-03").is(0, due));
    assert!(rt; told(&rt, alloc, &mut keeper, "due 2024-09-02").is(0, ""));
}

// An admission of extremely low income counts in its fiscal year, and in no other.
#[test]
fn an_admission_counts_in_its_year(rt: HostRuntime) {
    let alloc = rt.alloc();
    let mut keeper = MemoryKeeper::new(alloc);
    let acts = [PLAN, UNIT, RENTS, LIMITS, APPLY, ADMIT];
    assert!(rt; act(&rt, alloc, &mut keeper, "2024-01-01", 1, &acts).has_lines(0, 6));
    let admitted =
        "fiscal year from 2024-01-01\nadmitted 1\nextremely low 1\nexpected 10\nopen yes\n";
    assert!(rt; told(&rt, alloc, &mut keeper, "targets 2024-12-31").is(0, admitted));
    let none = "fiscal year from 2025-01-01\nadmitted 0\nextremely low 0\nexpected 10\nopen yes\n";
    assert!(rt; told(&rt, alloc, &mut keeper, "targets 2025-01-01").is(0, none));
}

#[test]
fn an_empty_book_has_its_reports(rt: HostRuntime) {
    let alloc = rt.alloc();
    for (words, text) in [
        ("voucher 2024-06", "month 2024-06 is not closed\n"),
        ("export", COLUMNS),
        ("due 2024-01-01", "no plan\n"),
        ("targets 2024-01-01", "no plan\n"),
    ] {
        let mut keeper = MemoryKeeper::new(alloc);
        assert!(rt; told(&rt, alloc, &mut keeper, words).is(0, text), "{words}");
        assert!(rt; keeper.tables().acts.is_empty());
    }
}

#[test]
fn a_report_needs_its_book(rt: HostRuntime) {
    let alloc = rt.alloc();
    let mut damaged = DamagedKeeper::new(Table::Lines, 5);
    assert!(rt; told(&rt, alloc, &mut damaged, "export").is(6, "bad book: lines 5\n"));
    let failing = [0].to_vec(alloc).expect(&rt, "memory");
    let mut failing = PlannedKeeper::new(alloc, failing);
    assert!(rt; told(&rt, alloc, &mut failing, "due 2024-01-01").is(5, ""));
}

#[test]
fn a_report_needs_its_sink(rt: HostRuntime) {
    let alloc = rt.alloc();
    let full = Trial {
        unwritten: Some(1),
        ..without_fault("export")
    };
    let told = ran(&rt, alloc, &mut MemoryKeeper::new(alloc), &full, b"");
    assert!(rt; told.begins(4, COLUMNS));
    assert!(rt; told.text.len() == 40);
}
