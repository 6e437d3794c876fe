//! The texts of replies and refusals.

use days_core::Day;
use office_answers::Reply;
use office_step::{Done, Made, Named, Refusal};
use reply_text::{text_of_bad_form, text_of_reply};
use sample_office::{day, month, written};
use std::alloc::Global;
use std::test::Fail;
use wait_list::Candidate;

/// Whether the text is that of the reply.
fn replies(alloc: Global, reply: Reply, wanted: &str) -> Result<bool, Fail> {
    let text = text_of_reply(alloc, &reply)?;
    Ok(text.as_bytes() == written(alloc, wanted)?.as_bytes())
}

fn accepts(alloc: Global, day: Day, made: Made, wanted: &str) -> Result<bool, Fail> {
    let done = Done { act: 4, day, made };
    let wanted = format!(in alloc; "{{'act':4,'day':'2024-01-01','made':{wanted}}}")?;
    replies(alloc, Reply::Accepted(done), wanted.as_str())
}

#[test]
fn writes_what_an_act_made(rt: HostRuntime) -> Result<(), Fail> {
    let alloc = rt.alloc();
    let (day, month) = (day("2024-01-01"), month("2024-01"));
    assert!(rt; accepts(alloc, day, Made::Nothing, "null")?);
    assert!(rt; accepts(alloc, day, Made::Unit(1), "{'unit':1}")?);
    assert!(rt; accepts(alloc, day, Made::Applicant(2), "{'applicant':2}")?);
    let made = Made::Closed {
        amount: 548,
        lines: 1,
        month,
    };
    assert!(rt;
        accepts(
            alloc,
            day,
            made,
            "{'amount':548,'lines':1,'month':'2024-01'}"
        )?
    );
    let made = Made::Closed {
        amount: -144,
        lines: 3,
        month,
    };
    assert!(rt;
        accepts(
            alloc,
            day,
            made,
            "{'amount':-144,'lines':3,'month':'2024-01'}"
        )?
    );
    Ok(())
}

#[test]
fn writes_what_was_certified(rt: HostRuntime) -> Result<(), Fail> {
    let alloc = rt.alloc();
    let made = Made::Certified {
        assistance: 548,
        household: 1,
        target: 1,
        reimbursement: 0,
        tenant_rent: 152,
        ttp: 212,
    };
    let wanted =
        "{'assistance':548,'household':1,'record':1,'reimbursement':0,'tenant_rent':152,'ttp':212}";
    assert!(rt; accepts(alloc, day("2024-01-01"), made, wanted)?);
    Ok(())
}

#[test]
fn writes_what_is_no_refusal_of_the_office(rt: HostRuntime) -> Result<(), Fail> {
    let alloc = rt.alloc();
    assert!(rt; replies(alloc, Reply::StoreFault, "{'refused':{'kind':'Store'}}")?);
    assert!(rt; replies(alloc, Reply::NoMemory, "{'refused':{'kind':'NoMemory'}}")?);
    let text = text_of_bad_form(alloc, "act.facts.members[0].born")?;
    let wanted = "{'refused':{'kind':'Form','path':'act.facts.members[0].born'}}";
    assert_eq!(rt; text.as_bytes(), written(alloc, wanted)?.as_bytes());
    Ok(())
}

fn refuses(alloc: Global, why: Refusal, wanted: &str) -> Result<bool, Fail> {
    let wanted = format!(in alloc; "{{'refused':{{{wanted}}}}}")?;
    replies(alloc, Reply::Refused(why), wanted.as_str())
}

#[test]
fn writes_refusals_of_any_act(rt: HostRuntime) -> Result<(), Fail> {
    let alloc = rt.alloc();
    for (why, wanted) in [
        (
            Refusal::RequestReused { act: 4 },
            "'act':4,'kind':'RequestReused','number':1",
        ),
        (Refusal::NoPlan, "'kind':'NoPlan','number':2"),
        (
            Refusal::PlanGiven { act: 1 },
            "'act':1,'kind':'PlanGiven','number':3",
        ),
        (
            Refusal::BookFull { acts: 100_000 },
            "'acts':100000,'kind':'BookFull','number':4",
        ),
        (
            Refusal::Stale { newest: 2 },
            "'kind':'Stale','newest':2,'number':6",
        ),
        (
            Refusal::Unseen { newest: 2 },
            "'kind':'Unseen','newest':2,'number':7",
        ),
        (
            Refusal::FactsRule { rule: 3 },
            "'kind':'FactsRule','number':8,'rule':3",
        ),
        (
            Refusal::NotLive { target: 2 },
            "'kind':'NotLive','number':12,'record':2",
        ),
    ] {
        assert!(rt; refuses(alloc, why, wanted)?, "{wanted}");
    }
    Ok(())
}

#[test]
fn writes_what_is_not_there(rt: HostRuntime) -> Result<(), Fail> {
    let alloc = rt.alloc();
    for (what, wanted) in [
        (Named::Household, "'what':'household'"),
        (Named::Applicant, "'what':'applicant'"),
        (Named::Unit, "'what':'unit'"),
        (Named::Record, "'what':'record'"),
    ] {
        let wanted = format!(in alloc; "'id':9,'kind':'NoSuch','number':5,{wanted}")?;
        assert!(rt;
            refuses(alloc, Refusal::NoSuch { what, id: 9 }, wanted.as_str())?,
            "{wanted}"
        );
    }
    Ok(())
}

#[test]
fn writes_refusals_of_days(rt: HostRuntime) -> Result<(), Fail> {
    let alloc = rt.alloc();
    let (day, last) = (day("2024-01-01"), day("2099-12-31"));
    let household = 1;
    for (why, wanted) in [
        (
            Refusal::DayRange { first: day, last },
            "'first':'2024-01-01','kind':'DayRange','last':'2099-12-31','number':9",
        ),
        (
            Refusal::NoRent { group: 2, day },
            "'day':'2024-01-01','group':2,'kind':'NoRent','number':10",
        ),
        (
            Refusal::NoLimits { day },
            "'day':'2024-01-01','kind':'NoLimits','number':11",
        ),
        (
            Refusal::WrongDay { right: Some(day) },
            "'kind':'WrongDay','number':13,'right':'2024-01-01'",
        ),
        (
            Refusal::WrongDay { right: None },
            "'kind':'WrongDay','number':13,'right':null",
        ),
        (
            Refusal::UnitTaken { household, day },
            "'day':'2024-01-01','household':1,'kind':'UnitTaken','number':17",
        ),
        (
            Refusal::Overdue {
                household,
                anniversary: day,
            },
            "'anniversary':'2024-01-01','household':1,'kind':'Overdue','number':23",
        ),
    ] {
        assert!(rt; refuses(alloc, why, wanted)?, "{wanted}");
    }
    Ok(())
}

#[test]
fn writes_refusals_of_units_and_incomes(rt: HostRuntime) -> Result<(), Fail> {
    let alloc = rt.alloc();
    for (why, wanted) in [
        (
            Refusal::Disorder { target: 2 },
            "'kind':'Disorder','number':14,'record':2",
        ),
        (
            Refusal::NameTaken { unit: 1 },
            "'kind':'NameTaken','number':15,'unit':1",
        ),
        (
            Refusal::SizeMisfit { unit: 1, size: 3 },
            "'kind':'SizeMisfit','number':16,'size':3,'unit':1",
        ),
        (
            Refusal::Ineligible {
                limit: 48_000,
                annual: 48_001,
            },
            "'annual':48001,'kind':'Ineligible','limit':48000,'number':19",
        ),
        (
            Refusal::NoAssistance {
                ttp: 800,
                gross: 760,
            },
            "'gross':760,'kind':'NoAssistance','number':20,'ttp':800",
        ),
    ] {
        assert!(rt; refuses(alloc, why, wanted)?, "{wanted}");
    }
    Ok(())
}

#[test]
fn writes_who_is_next(rt: HostRuntime) -> Result<(), Fail> {
    let alloc = rt.alloc();
    for (next, wanted) in [
        (Some(Candidate::Applicant(2)), "{'applicant':2}"),
        (Some(Candidate::Household(3)), "{'household':3}"),
        (None, "null"),
    ] {
        let refusal = format!(in alloc; "'kind':'NotNext','next':{wanted},'number':18")?;
        assert!(rt;
            refuses(alloc, Refusal::NotNext { next }, refusal.as_str())?,
            "{wanted}"
        );
    }
    Ok(())
}

#[test]
fn writes_refusals_of_closings(rt: HostRuntime) -> Result<(), Fail> {
    let alloc = rt.alloc();
    let (day, month) = (day("2024-02-01"), month("2024-02"));
    for (why, wanted) in [
        (
            Refusal::WrongMonth { next: Some(month) },
            "'kind':'WrongMonth','next':'2024-02','number':21",
        ),
        (
            Refusal::WrongMonth { next: None },
            "'kind':'WrongMonth','next':null,'number':21",
        ),
        (
            Refusal::RentDue {
                household: 1,
                target: 2,
                day,
            },
            "'day':'2024-02-01','household':1,'kind':'RentDue','number':22,'record':2",
        ),
        (
            Refusal::LinesFull { lines: 8, more: 2 },
            "'kind':'LinesFull','lines':8,'more':2,'number':24",
        ),
    ] {
        assert!(rt; refuses(alloc, why, wanted)?, "{wanted}");
    }
    Ok(())
}
