//! What closings take: so many households, each with a record every four months that comes up to three months late, a
//! quarter of the households a month, and so many months from 2024-01 on. Prints how many lines that makes and what they
//! come to: for two households and seven months fourteen lines of 502 to 504 dollars, and three that raise a month by one.
#![tactic(auto)]

ghost use Rattle.std.specs.Prelude.{◌<◌, ◌≤◌};

use days_core::{LAST_OFFICE_DAY, Month, Rents, first_of};
use plain_data::NoMemory;
use record_history::{History, Kind, MOST_ACTS, Record};
use std::alloc::Global;
use std::process::ExitCode;
use std::rt::Env;
use std::{env, io};
use voucher_core::{Closing, Line, close_lines};

/// 2024-01
const FIRST_MONTH: u32 = 1728;

fn main(rt: HostRuntime) -> ExitCode {
    match run(&rt) {
        Ok(true) => ExitCode::SUCCESS,
        _ => ExitCode::FAILURE,
    }
}

fn run<R: Env + Print + AllocGlobal>(rt: &R) -> io::Result<bool> {
    let words: Vec<String> = env::args(rt)?.skip(1).collect(rt.alloc())?;
    let [households, months] = words.as_slice() else {
        return Ok(false);
    };
    let (Ok(households), Ok(months)) = (households.parse(), months.parse()) else {
        return Ok(false);
    };
    let Ok((lines, amount)) = close_all(rt.alloc(), households, months) else {
        return Ok(false);
    };
    println!(rt; "{lines} lines, {amount} dollars")?;
    Ok(true)
}

fn close_all(alloc: Global, households: u32, months: u32) -> Result<(u64, i64), NoMemory> {
    let months = months.min(900);
    let mut history = History::new(alloc)?;
    let (mut count, mut amount) = (0u64, 0i64);
    for place in 0..months {
        hold_all(&mut history, households, place)?;
        for line in &close(alloc, &history, place)? {
            count = count.wrapping_add(1);
            amount = amount.wrapping_add(i64::from(line.amount));
        }
    }
    Ok((count, amount))
}

/// The lines of the closing of the month at that place, by an act of its own.
fn close(alloc: Global, history: &History, place: u32) -> Result<Vec<Line>, NoMemory>
    requires { place < 900 }
{
    if history.households() > MOST_ACTS {
        return Ok(Vec::new(alloc));
    }
    let closing = Closing {
        closed: Month::from_number(FIRST_MONTH + place).unwrap(),
        first_month: Month::from_number(FIRST_MONTH).unwrap(),
        last_close: 1000 * place,
        act: 1000 * place + 1000,
    };
    close_lines(alloc, history, &closing)
}

/// Holds the records that are known by the closing of the month at that place.
fn hold_all(history: &mut History, households: u32, place: u32) -> Result<(), NoMemory>
    requires { place < 900 }
{
    for household in 1..households.saturating_add(1) {
        if place == 0 || (place > 3 && household % 4 == place % 4) {
            hold(history, household, place / 4)?;
        }
    }
    Ok(())
}

/// Holds a household's next record: from the first day of each fourth month on, but known up to three months later.
fn hold(history: &mut History, household: u32, place: u32) -> Result<(), NoMemory>
    requires household { 1 ≤ household }
    requires place { place ≤ 225 }
{
    let act = 4000 * place + 1000 * (household % 4) + 1;
    let from = first_of(Month::from_number(FIRST_MONTH + 4 * place).unwrap());
    if household - 1 > history.households()
        || history.newest(household) != place
        || history.newest_act(household) >= act
        || from.number() > LAST_OFFICE_DAY
    {
        return Ok(());
    }
    history.reserve(household)?;
    history.push(Record {
        household,
        number: place + 1,
        act,
        kind: if place == 0 { Kind::IC } else { Kind::IR },
        from,
        corrects: 0,
        unit: household,
        persons: 1,
        size: 1,
        extremely: false,
        annual: 9600,
        adjusted: 8488,
        ttp: 212,
        rents: Rents {
            contract_rent: 700,
            utility: 60,
        },
        assistance: 501 + household % 50 + place % 7,
        dates: None,
    });
    Ok(())
}
