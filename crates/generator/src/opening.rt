//! What is set down on the first day.

ghost use Rattle.std.specs.Prelude.{◌≡◌, ◌++◌, IfOk, OnOk};
ghost use Rattle.generator.specs.Acts.{limits, opening_acts, plan_for, rents_from};

use crate::MadeAct;
use crate::act::ask;
use crate::dates::{month_at, opening_day};
use book_rows::{Command, LimitsAct, RentsAct};
use days_core::{Day, Rents};
use plain_data::{Listed, NoMemory};
use rent_table::{Bound, Plan};
use std::alloc::Global;

/// Asks for the plan, the income limits and the first rents.
pub fn ask_opening(alloc: Global, acts: &mut Vec<MadeAct>, count: u16) -> Result<(), NoMemory>
    ensures { OnOk result (acts.new.items ≡ acts.old.items ++ opening_acts count) }
{
    let plan = plan_for(alloc, count)?;
    ask(acts, opening_day(), Command::Plan(plan))?;
    ask(acts, opening_day(), Command::Limits(limits()))?;
    ask(
        acts,
        opening_day(),
        Command::Rents(rents_from(opening_day(), 700)),
    )
}

/// The plan of an office that expects so many admissions a year.
fn plan_for(alloc: Global, expected: u16) -> Result<Plan, NoMemory>
    ensures { IfOk result (λ plan. plan ≡ plan_for expected) }
{
    let bounds = [
        Bound { least: 1, most: 1 },
        Bound { least: 1, most: 2 },
        Bound { least: 2, most: 4 },
        Bound { least: 3, most: 6 },
        Bound { least: 4, most: 8 },
        Bound { least: 5, most: 10 },
    ];
    Ok(Plan {
        first: month_at(2024, 1),
        early: false,
        method: 1,
        fiscal_month: 1,
        report_days: 30,
        passbook: 200,
        expected: expected.into(),
        bounds,
        ranks: Listed::new(Vec::new(alloc)),
    })
}

/// The same limits for families of every size.
fn limits() -> LimitsAct
    ensures { result ≡ limits }
{
    LimitsAct {
        from: opening_day(),
        low: [48_000; 12],
        very_low: [30_000; 12],
        extremely_low: [18_000; 12],
    }
}

/// The rents of the one group of units, from a day on.
pub fn rents_from(from: Day, contract_rent: u32) -> RentsAct
    ensures { result ≡ rents_from from contract_rent }
{
    RentsAct {
        group: 1,
        from,
        rents: Rents {
            contract_rent,
            utility: 60,
        },
    }
}
