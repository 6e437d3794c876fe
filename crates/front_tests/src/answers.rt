//! The texts of answers.

use days_core::Rents;
use office_answers::{Admissions, Answer, DueDay, HouseholdSummary, Voucher};
use plain_data::{Listed, Text};
use record_history::{Dates, Kind, Record};
use reply_text::text_of_answer;
use sample_office::{day, month, written};
use std::alloc::Global;
use std::test::Fail;
use voucher_core::Line;
use wait_list::Candidate;

/// Whether the text is that of the answer.
fn answers(alloc: Global, answer: Answer, wanted: &str) -> Result<bool, Fail> {
    let text = text_of_answer(alloc, &answer)?;
    Ok(text.as_bytes() == written(alloc, wanted)?.as_bytes())
}

#[test]
fn tells_a_household(rt: HostRuntime) -> Result<(), Fail> {
    let alloc = rt.alloc();
    for (name, told) in [
        (b"Ada Reed".as_slice(), "'Ada Reed'"),
        (b"\xff".as_slice(), "null"),
    ] {
        let summary = HouseholdSummary {
            household: 1,
            name: Text::new(name.to_vec(alloc)?),
            live: Listed::new([1u32, 3].to_vec(alloc)?),
            newest: 4,
        };
        let wanted = format!(in alloc; "{{'household':1,'live':[1,3],'name':{told},'newest':4}}")?;
        assert!(rt;
            answers(alloc, Answer::Household(summary), wanted.as_str())?,
            "{told}"
        );
    }
    Ok(())
}

fn interim(kind: Kind, dates: Option<Dates>) -> Record {
    Record {
        household: 1,
        number: 2,
        act: 9,
        kind,
        from: day("2024-03-01"),
        corrects: 0,
        unit: 3,
        persons: 4,
        size: 5,
        extremely: true,
        annual: 10_800,
        adjusted: 10_400,
        ttp: 260,
        rents: Rents {
            contract_rent: 700,
            utility: 60,
        },
        assistance: 500,
        dates,
    }
}

#[test]
fn tells_a_record(rt: HostRuntime) -> Result<(), Fail> {
    let alloc = rt.alloc();
    let dates = Dates {
        event: day("2024-02-10"),
        notice: day("2024-02-20"),
        done: day("2024-06-01"),
    };
    let wanted =
        "{'act':9,'adjusted':10400,'annual':10800,'assistance':500,'contract_rent':700,'corrects':0,\
        'dates':{'done':'2024-06-01','event':'2024-02-10','notice':'2024-02-20'},'extremely':true,\
        'from':'2024-03-01','household':1,'kind':'IR','number':2,'persons':4,'size':5,'ttp':260,'unit':3,\
        'utility':60}";
    let held = interim(Kind::IR, Some(dates));
    assert!(rt; answers(alloc, Answer::Record(held), wanted)?);
    Ok(())
}

#[test]
fn tells_each_kind_of_record(rt: HostRuntime) -> Result<(), Fail> {
    let alloc = rt.alloc();
    for (kind, word) in [
        (Kind::MI, "MI"),
        (Kind::IC, "IC"),
        (Kind::AR, "AR"),
        (Kind::GR, "GR"),
        (Kind::UT, "UT"),
        (Kind::MO, "MO"),
        (Kind::TM, "TM"),
        (Kind::WD, "WD"),
    ] {
        let wanted = format!(in alloc;
            "{{'act':9,'adjusted':10400,'annual':10800,'assistance':500,'contract_rent':700,'corrects':0,'dates':null,\
            'extremely':true,'from':'2024-03-01','household':1,'kind':'{word}','number':2,'persons':4,'size':5,\
            'ttp':260,'unit':3,'utility':60}}"
        )?;
        let held = interim(kind, None);
        assert!(rt;
            answers(alloc, Answer::Record(held), wanted.as_str())?,
            "{word}"
        );
    }
    Ok(())
}

fn taken_back() -> Line {
    Line {
        act: 12,
        place: 2,
        month: month("2024-06"),
        household: 1,
        for_month: month("2024-03"),
        first: day("2024-03-01"),
        last: day("2024-03-31"),
        old: 1,
        new: 2,
        amount: -48,
    }
}

#[test]
fn tells_a_voucher(rt: HostRuntime) -> Result<(), Fail> {
    let alloc = rt.alloc();
    let wanted =
        "{'adjustments':-144,'lines':[{'amount':-48,'first':'2024-03-01','for_month':'2024-03','household':1,\
        'last':'2024-03-31','new':2,'old':1}],'month':'2024-06','requested':500,'total':356}";
    let voucher = Voucher {
        month: month("2024-06"),
        lines: Listed::new([taken_back()].to_vec(alloc)?),
        requested: 500,
        adjustments: -144,
        total: 356,
    };
    assert!(rt; answers(alloc, Answer::Voucher(Some(voucher)), wanted)?);
    assert!(rt; answers(alloc, Answer::Voucher(None), "{'voucher':null}")?);
    Ok(())
}

#[test]
fn tells_what_is_paid_and_who_is_next(rt: HostRuntime) -> Result<(), Fail> {
    let alloc = rt.alloc();
    assert!(rt; answers(alloc, Answer::Paid(500), "{'paid':500}")?);
    assert!(rt; answers(alloc, Answer::Paid(-9_000_000_000), "{'paid':-9000000000}")?);
    assert!(rt; answers(alloc, Answer::Next(None), "{'next':null}")?);
    let next = Some(Candidate::Household(7));
    assert!(rt; answers(alloc, Answer::Next(next), "{'next':{'household':7}}")?);
    Ok(())
}

#[test]
fn tells_what_is_due(rt: HostRuntime) -> Result<(), Fail> {
    let alloc = rt.alloc();
    let due = [
        DueDay {
            day: day("2025-01-01"),
            household: 2,
        },
        DueDay {
            day: day("2025-02-01"),
            household: 1,
        },
    ];
    let wanted = "{'due':[{'due':'2025-01-01','household':2},{'due':'2025-02-01','household':1}]}";
    assert!(rt; answers(alloc, Answer::Due(Listed::new(due.to_vec(alloc)?)), wanted)?);
    Ok(())
}

#[test]
fn tells_the_admissions_of_a_year(rt: HostRuntime) -> Result<(), Fail> {
    let alloc = rt.alloc();
    let targets = Admissions {
        first_day: day("2024-01-01"),
        expected: 10,
        admitted: 5,
        extremely_low: 3,
        opened: true,
    };
    let wanted =
        "{'admitted':5,'expected':10,'extremely_low':3,'first_day':'2024-01-01','open':true}";
    assert!(rt; answers(alloc, Answer::Targets(targets), wanted)?);
    Ok(())
}
