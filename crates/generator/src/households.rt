//! The households of the made office.

ghost use Rattle.std.specs.Prelude.{◌≡◌, ◌≤◌, ◌∷◌, IfOk};
ghost use Rattle.generator.specs.Acts.{digit_of, earning, has_raise, later_wages_of, records_at_first, three_digits, wages_of};

use crate::dates::month_at;
use days_core::first_of;
use facts_core::{Facts, Income, IncomeKind, Member, Relation};
use plain_data::{Listed, NoMemory, Text};
use std::alloc::Global;

/// Every third household has a raise in its first year.
pub fn has_raise(number: u16) -> bool
    ensures { result ≡ has_raise number }
{
    number % 3 == 0
}

/// How many records the household has in its first year.
pub fn records_at_first(number: u16) -> u32
    ensures value { result ≡ records_at_first number }
    ensures few { result ≤ 2 }
{
    if has_raise(number) { 2 } else { 1 }
}

/// The wages that the household of that number has at first.
pub fn wages_of(number: u16) -> u32
    ensures value { result ≡ wages_of number }
    ensures bound { result ≤ 3000000 }
{
    6_000 + 40 * u32::from(number)
}

/// And those that it has after a year.
pub fn later_wages_of(number: u16) -> u32
    ensures { result ≡ later_wages_of number }
{
    if has_raise(number) {
        wages_of(number) + 2_000
    } else {
        wages_of(number)
    }
}

/// The facts of one person who earns these wages and has nothing else.
pub fn earning(alloc: Global, wages: u32) -> Result<Facts, NoMemory>
    ensures { IfOk result (λ facts. facts ≡ earning wages) }
{
    let person = Member {
        relation: Relation::Head,
        born: first_of(month_at(1970, 1)),
        disabled: false,
        student: false,
        helped: false,
        cared: false,
        eligible: true,
    };
    let earned = Income {
        member: 0,
        kind: IncomeKind::Wages,
        annual: wages,
    };
    let members = Listed::new([person].to_vec(alloc)?);
    let incomes = Listed::new([earned].to_vec(alloc)?);
    Ok(Facts {
        members,
        incomes,
        assets: Listed::new(Vec::new(alloc)),
        disposals: Listed::new(Vec::new(alloc)),
        care_work: 0,
        care_school: 0,
        disability: 0,
        medical: 0,
        welfare: 0,
        exempt: false,
    })
}

/// A name: a letter and three digits.
pub fn name_of(alloc: Global, letter: u8, number: u16) -> Result<Text, NoMemory>
    ensures { IfOk result (λ name. name ≡ letter ∷ three_digits number) }
{
    let name = [
        letter,
        digit(number / 100),
        digit(number / 10),
        digit(number),
    ];
    Ok(Text::new(name.to_vec(alloc)?))
}

/// The last digit.
fn digit(number: u16) -> u8
    ensures { result ≡ digit_of number }
{
    b'0' + (number % 10) as u8
}
