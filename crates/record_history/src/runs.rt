//! Runs of days with one record in force.

ghost use Rattle.std.specs.Prelude.{◌≡◌, ◌≤◌, ◌+◌, nat_eq, map, All, IfOk};
ghost use Rattle.record_history.specs.Records.{as_of};
ghost use Rattle.record_history.specs.Households.{IsIndexed};
ghost use Rattle.record_history.specs.Stretch.{stretches, CoverLongest};
ghost use Rattle.record_history.specs.Runs.{number_on, stretch_of, IsBy};
ghost use Rattle.days_core.specs.Calendar.{last_day};

use crate::Stretch;
use crate::force::in_force_at;
use crate::household::Household;
use crate::stretch::add_days;
use days_core::Day;
use plain_data::NoMemory;
use std::alloc::Global;

/// Days one after another with one record in force, or with none.
#[derive(Clone, Copy, Debug, PartialEq, Eq)]
pub struct Run {
    pub first: Day,
    pub last: Day,
    /// The number of the record in force, or 0.
    pub number: u32,
}

pub fn runs_among(
    alloc: Global,
    own: &Household,
    first: Day,
    last: Day,
    act: u32,
) -> Result<Vec<Run>, NoMemory>
    requires { IsIndexed own.now }
    ensures runs { IfOk result (λ runs. map stretch_of runs.items ≡ stretches nat_eq (number_on (as_of act own.now.records.items)) first (last + 1)) }
    ensures longest { IfOk result (λ runs. first ≤ last + 1 → CoverLongest (number_on (as_of act own.now.records.items)) first (last + 1) (map stretch_of runs.items)) }
{
    let days = stretches_among(alloc, own, first.number(), last.number(), act)?;
    runs_of(alloc, &days)
}

fn stretches_among(
    alloc: Global,
    own: &Household,
    first: u32,
    last: u32,
    act: u32,
) -> Result<Vec<Stretch<u32>>, NoMemory>
    requires indexed { IsIndexed own.now }
    requires last { last ≤ last_day }
    ensures { IfOk result (λ days. days.items ≡ stretches nat_eq (number_on (as_of act own.now.records.items)) first (last + 1)) }
{
    let mut days = Vec::new(alloc);
    for day in first..last + 1 {
        add_days(&mut days, day, day, number_on(own, day, act))?;
    }
    Ok(days)
}

fn number_on(own: &Household, day: u32, act: u32) -> u32
    requires indexed { IsIndexed own.now }
    requires day { day ≤ last_day }
    ensures { result ≡ number_on (as_of act own.now.records.items) day }
{
    match in_force_at(own, Day::from_number(day).unwrap(), act) {
        Some(held) => held.number,
        None => 0,
    }
}

fn runs_of(alloc: Global, days: &[Stretch<u32>]) -> Result<Vec<Run>, NoMemory>
    requires { All (IsBy last_day) days.now }
    ensures { IfOk result (λ runs. map stretch_of runs.items ≡ days.now) }
{
    let mut runs = Vec::new(alloc);
    for stretch in days {
        runs.push(run_of(stretch))?;
    }
    Ok(runs)
}

fn run_of(stretch: &Stretch<u32>) -> Run
    requires { IsBy last_day stretch.now }
    ensures { stretch_of result ≡ stretch.now }
{
    Run {
        first: Day::from_number(stretch.first).unwrap(),
        last: Day::from_number(stretch.last).unwrap(),
        number: stretch.key,
    }
}
