//! What an act names, by what the register knows.

ghost use Rattle.std.specs.Prelude.{◌≡◌, option_copied, IfSome};
ghost use Rattle.record_history.specs.Held.{IsWithin};
ghost use Rattle.admission_order.specs.Below.office_register.Registered.{HasDates};
ghost use Rattle.admission_order.specs.Below.office_step.Households.{record_at, unit_continued};
ghost use Rattle.admission_order.specs.Below.office_step.Known.{own_in};
ghost use Rattle.admission_order.specs.Below.office_step.Matter.{own};
ghost use Rattle.office_acts.specs.Matter.{matter_by};

use crate::matter::Matter;
use admission_order::office_refusals::continued;
use admission_order::office_register::Register;
use days_core::Day;
use record_history::{Dates, Record};

/// The household's record of that number.
pub fn target_in<'a>(about: &Matter<'a>, number: u32) -> Option<&'a Record>
    ensures value { option_copied result ≡ record_at (own (matter_by about.now)) number }
    ensures within { IfSome (option_copied result) IsWithin }
    ensures dates { IfSome (option_copied result) HasDates }
{
    held_in(about.register, about.household(), number)
}

fn held_in(register: &Register, household: u32, number: u32) -> Option<&Record>
    ensures value { option_copied result ≡ record_at (own_in register.now.known household) number }
    ensures within { IfSome (option_copied result) IsWithin }
    ensures dates { IfSome (option_copied result) HasDates }
{
    record_among(register.history().records(household), number)
}

fn record_among(records: &[Record], number: u32) -> Option<&Record>
    ensures { option_copied result ≡ record_at records.now number }
{
    records.iter().find(|held| held.number == number)
}

/// The unit of a record that names none, and 0 where the household has no record that it could continue.
pub fn unit_continued(register: &Register, household: u32, from: Day) -> u32
    ensures { result ≡ unit_continued (own_in register.now.known household) from }
{
    match continued(register.history(), household, from) {
        Some(held) => held.unit,
        None => 0,
    }
}
