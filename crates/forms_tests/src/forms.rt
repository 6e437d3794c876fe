//! The printed form.

use crate::offices::{let_go, office_after};
use batch_command::office_core::Office;
use days_core::{Day, Month, day_of_text, month_of_text};
use forms_text::voucher_text;
use line_records::lines_csv;
use office_reports::{due_text, targets_text};
use plain_data::{NoMemory, Text};
use sample_office::{ADMIT, APPLY, CLOSE_JANUARY, LIMITS, PLAN, RENTS, START, UNIT, written};
use std::alloc::Global;
use std::process::Abort;
use std::test::Fail;

/// Five closed months of one household in one unit.
const FIVE_MONTHS: [&str; 9] = [
    PLAN,
    UNIT,
    RENTS,
    START,
    CLOSE_JANUARY,
    "{'kind':'close','month':'2024-02'}",
    "{'kind':'close','month':'2024-03'}",
    "{'kind':'close','month':'2024-04'}",
    "{'kind':'close','month':'2024-05'}",
];

/// Its income is higher from March on, which is told in May; then June is closed.
const RETROACTIVE: [&str; 2] = [
    "{'done':'2024-05-20','event':'2024-01-20','facts':\
    {'assets':[],'care_school':0,'care_work':0,'disability':0,'disposals':[],'exempt':false,\
    'incomes':[{'annual':10800,'kind':'Benefits','member':0}],'medical':0,\
    'members':[{'born':'1953-06-01','cared':false,'disabled':false,'helped':false,'relation':'Head','student':false}],\
    'welfare':0},\
    'from':'2024-03-01','household':1,'kind':'interim','notice':'2024-01-25','seen':1}",
    "{'kind':'close','month':'2024-06'}",
];

/// One applicant of extremely low income, who is admitted.
const ADMITTED: [&str; 6] = [PLAN, UNIT, RENTS, LIMITS, APPLY, ADMIT];

/// Lines of clerk 1 on that day, for requests from that number on.
fn lines(alloc: Global, today: &str, first: u64, acts: &[&str]) -> Result<Vec<u8>, Fail> {
    let mut text = String::new(alloc);
    for (place, act) in acts.iter().take(9).enumerate() {
        let request = first.saturating_add(place as u64);
        let line = format!(in alloc;
            "{{'today':'{today}','clerk':1,'request':{request},'act':{act}}}\n"
        )?;
        text.push_str(&line)?;
    }
    Ok(written(alloc, &text)?.into_bytes())
}

fn five_months(rt: &impl Abort, alloc: Global) -> Result<Office, Fail> {
    office_after(rt, alloc, lines(alloc, "2024-01-01", 1, &FIVE_MONTHS)?, 9)
}

fn six_months(rt: &impl Abort, alloc: Global) -> Result<Office, Fail> {
    let mut input = lines(alloc, "2024-01-01", 1, &FIVE_MONTHS)?;
    input.extend_from_slice(&lines(alloc, "2024-05-20", 10, &RETROACTIVE)?)?;
    office_after(rt, alloc, input, 11)
}

fn expect(rt: &impl Abort, told: Result<Text, NoMemory>, wanted: &str) {
    match told {
        Ok(text) => assert!(rt; text.as_bytes() == wanted.as_bytes(), "{text:?}"),
        Err(NoMemory) => panic!(rt; "no memory"),
    }
}

fn on(rt: &impl Abort, text: &str) -> Day {
    day_of_text(text).expect(rt, "a day")
}

fn of(rt: &impl Abort, text: &str) -> Month {
    month_of_text(text).expect(rt, "a month")
}

#[test]
fn the_application_of_june(rt: HostRuntime) -> Result<(), Fail> {
    let alloc = rt.alloc();
    let office = six_months(&rt, alloc)?;
    expect(
        &rt,
        voucher_text(alloc, &office, of(&rt, "2024-06")),
        "FORM HUD-52670 (office layout)\n\
        Month: 2024-06\n\
        Households: 1\n\
        Requested: 500\n\
        Adjustments: -144\n\
        Total: 356\n\
        \n\
        SCHEDULE OF TENANT ASSISTANCE PAYMENTS DUE\n\
        Household Unit       First      Last       Record     Amount Name\n\
        \x20       1 A-101      2024-06-01 2024-06-30      2        500 Ada Reed\n\
        \n\
        SCHEDULE OF ADJUSTMENTS\n\
        Household Month   First      Last          Old    New     Amount\n\
        \x20       1 2024-03 2024-03-01 2024-03-31      1      2        -48\n\
        \x20       1 2024-04 2024-04-01 2024-04-30      1      2        -48\n\
        \x20       1 2024-05 2024-05-01 2024-05-31      1      2        -48\n",
    );
    let_go(office);
    Ok(())
}

#[test]
fn all_lines_as_csv(rt: HostRuntime) -> Result<(), Fail> {
    let alloc = rt.alloc();
    let office = six_months(&rt, alloc)?;
    expect(
        &rt,
        lines_csv(alloc, &office.tables().lines),
        "closing,household,for_month,first,last,old,new,amount\n\
        2024-01,1,2024-01,2024-01-01,2024-01-31,0,1,548\n\
        2024-02,1,2024-02,2024-02-01,2024-02-29,0,1,548\n\
        2024-03,1,2024-03,2024-03-01,2024-03-31,0,1,548\n\
        2024-04,1,2024-04,2024-04-01,2024-04-30,0,1,548\n\
        2024-05,1,2024-05,2024-05-01,2024-05-31,0,1,548\n\
        2024-06,1,2024-03,2024-03-01,2024-03-31,1,2,-48\n\
        2024-06,1,2024-04,2024-04-01,2024-04-30,1,2,-48\n\
        2024-06,1,2024-05,2024-05-01,2024-05-31,1,2,-48\n\
        2024-06,1,2024-06,2024-06-01,2024-06-30,0,2,500\n",
    );
    let_go(office);
    Ok(())
}

#[test]
fn a_month_that_is_not_closed_and_a_day_that_is_due(rt: HostRuntime) -> Result<(), Fail> {
    let alloc = rt.alloc();
    let office = five_months(&rt, alloc)?;
    let june = voucher_text(alloc, &office, of(&rt, "2024-06"));
    expect(&rt, june, "month 2024-06 is not closed\n");
    let seen_late = due_text(alloc, &office, on(&rt, "2024-09-03"));
    expect(&rt, seen_late, "2025-01-01 household 1\n");
    let seen_early = due_text(alloc, &office, on(&rt, "2024-09-02"));
    expect(&rt, seen_early, "");
    let_go(office);
    Ok(())
}

#[test]
fn the_admissions_of_two_years(rt: HostRuntime) -> Result<(), Fail> {
    let alloc = rt.alloc();
    let office = office_after(&rt, alloc, lines(alloc, "2024-01-01", 1, &ADMITTED)?, 6)?;
    expect(
        &rt,
        targets_text(alloc, &office, on(&rt, "2024-12-31")),
        "fiscal year from 2024-01-01\nadmitted 1\nextremely low 1\nexpected 10\nopen yes\n",
    );
    expect(
        &rt,
        targets_text(alloc, &office, on(&rt, "2025-01-01")),
        "fiscal year from 2025-01-01\nadmitted 0\nextremely low 0\nexpected 10\nopen yes\n",
    );
    let_go(office);
    Ok(())
}

#[test]
fn an_office_without_a_plan(rt: HostRuntime) -> Result<(), Fail> {
    let alloc = rt.alloc();
    let office = office_after(&rt, alloc, Vec::new(alloc), 0)?;
    expect(
        &rt,
        due_text(alloc, &office, on(&rt, "2024-09-03")),
        "no plan\n",
    );
    expect(
        &rt,
        targets_text(alloc, &office, on(&rt, "2024-09-03")),
        "no plan\n",
    );
    let june = voucher_text(alloc, &office, of(&rt, "2024-06"));
    expect(&rt, june, "month 2024-06 is not closed\n");
    let header = "closing,household,for_month,first,last,old,new,amount\n";
    expect(&rt, lines_csv(alloc, &office.tables().lines), header);
    let_go(office);
    Ok(())
}
