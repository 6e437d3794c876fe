//! What changes over the two years.

ghost use Rattle.std.specs.Prelude.{◌≡◌, ◌≤◌, ◌++◌, ◌∷◌, [], IfOk, OnOk, filter, map};
ghost use Rattle.generator.specs.Acts.{annual, gross, has_raise, interim, move_out, new_rents, of_household, records_at_first};

use crate::MadeAct;
use crate::act::ask;
use crate::dates::{left_on, month_at, raise_came, raise_told};
use crate::each::{PerUnit, ask_each};
use crate::households::{earning, has_raise, later_wages_of, records_at_first, wages_of};
use crate::opening::rents_from;
use book_rows::{
    AnnualAct, Command, GrossAct, HouseholdAct, HouseholdChange, InterimAct, MoveOutAct,
};
use days_core::first_of;
use plain_data::NoMemory;
use record_history::Dates;
use std::alloc::Global;

/// In July 2024 every third household's raise of 2,000 a year, from May on.
pub fn ask_interims(alloc: Global, acts: &mut Vec<MadeAct>, numbers: &[u16]) -> Result<(), NoMemory>
    ensures { OnOk result (acts.new.items ≡ acts.old.items ++ map interim (filter has_raise numbers.now)) }
{
    let raised = raised_among(alloc, numbers)?;
    ask_each(alloc, acts, &raised, &Interim)
}

fn raised_among(alloc: Global, numbers: &[u16]) -> Result<Vec<u16>, NoMemory>
    ensures { IfOk result (λ raised. raised.items ≡ filter has_raise numbers.now) }
{
    let raised = numbers
        .iter()
        .filter(|number| has_raise(**number))
        .copied()
        .collect(alloc)?;
    Ok(raised)
}

/// In January 2025 every household's annual certification.
pub fn ask_annuals(alloc: Global, acts: &mut Vec<MadeAct>, numbers: &[u16]) -> Result<(), NoMemory>
    ensures { OnOk result (acts.new.items ≡ acts.old.items ++ map annual numbers.now) }
{
    ask_each(alloc, acts, numbers, &Annual)
}

/// In July 2025 the new rents, and then each household's record with them.
pub fn ask_new_rents(
    alloc: Global,
    acts: &mut Vec<MadeAct>,
    numbers: &[u16],
) -> Result<(), NoMemory>
    ensures { OnOk result (acts.new.items ≡ acts.old.items ++ new_rents ∷ map gross numbers.now) }
{
    let day = first_of(month_at(2025, 7));
    ask(acts, day, Command::Rents(rents_from(day, 720)))?;
    ask_each(alloc, acts, numbers, &Gross)
}

/// In November 2025 household 1 has moved out.
pub fn ask_move_out(acts: &mut Vec<MadeAct>) -> Result<(), NoMemory>
    ensures { OnOk result (acts.new.items ≡ acts.old.items ++ move_out ∷ []) }
{
    let change = HouseholdChange::MoveOut(MoveOutAct { last: left_on() });
    ask(
        acts,
        first_of(month_at(2025, 11)),
        of_household(1, records_at_first(1) + 2, change),
    )
}

#[derive(Drop)]
struct Interim;

impl PerUnit for Interim {
    ghost asked = { λ _. interim };

    fn act(&self, alloc: Global, number: u16) -> Result<MadeAct, NoMemory> {
        let day = first_of(month_at(2024, 7));
        let interim = InterimAct {
            dates: Dates {
                event: raise_came(),
                notice: raise_told(),
                done: day,
            },
            from: first_of(month_at(2024, 5)),
            facts: earning(alloc, wages_of(number) + 2_000)?,
        };
        Ok(MadeAct {
            day,
            command: of_household(number.into(), 1, HouseholdChange::Interim(interim)),
        })
    }
}

#[derive(Drop)]
struct Annual;

impl PerUnit for Annual {
    ghost asked = { λ _. annual };

    fn act(&self, alloc: Global, number: u16) -> Result<MadeAct, NoMemory> {
        let day = first_of(month_at(2025, 1));
        let annual = AnnualAct {
            from: day,
            facts: earning(alloc, later_wages_of(number))?,
        };
        Ok(MadeAct {
            day,
            command: of_household(
                number.into(),
                records_at_first(number),
                HouseholdChange::Annual(annual),
            ),
        })
    }
}

#[derive(Drop)]
struct Gross;

impl PerUnit for Gross {
    ghost asked = { λ _. gross };

    fn act(&self, _alloc: Global, number: u16) -> Result<MadeAct, NoMemory> {
        let day = first_of(month_at(2025, 7));
        let change = HouseholdChange::Gross(GrossAct { from: day });
        Ok(MadeAct {
            day,
            command: of_household(number.into(), records_at_first(number) + 1, change),
        })
    }
}

fn of_household(household: u32, seen: u32, change: HouseholdChange) -> Command
    ensures { result ≡ of_household household seen change }
{
    Command::Household(HouseholdAct {
        household,
        seen,
        change,
    })
}
