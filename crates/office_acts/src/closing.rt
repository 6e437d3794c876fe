//! The act that closes a month, and its lines.

ghost use Rattle.std.specs.Prelude.{◌<◌, ◌^◌, length, ◌≡◌, ◌≤◌, ◌+◌, [], None, option_and_then, IfSome, IfOk, IsOk};
ghost use Rattle.std.specs.Option.{option_map, option_map_or, option_or};
ghost use Rattle.days_core.specs.OfficeDays.{last_office_month};
ghost use Rattle.admission_order.specs.Below.office_step.Made.{last_close, closing_by, lines_of_close, lines_of};
ghost use Rattle.admission_order.specs.Below.office_step.Against.{next_month, plan_day, wrong_month, rent_due, overdue};
ghost use Rattle.admission_order.specs.Below.office_step.Known.{own_in};
ghost use Rattle.admission_order.specs.Below.office_step.Refusals.{household_rent_due, first_household};
ghost use Rattle.office_acts.specs.Judged.{ClosesBy};
ghost use Rattle.office_acts.specs.Matter.{matter_by};

use crate::matter::Matter;
use crate::refusing::refused_unless;
use admission_order::office_refusals as refusals;
use admission_order::office_refusals::next_to_close;
use admission_order::office_register::Register;
use admission_order::office_step::{Closed, Refusal};
use book_rows::{CloseAct, Command};
use days_core::{Day, Month, last_of};
use plain_data::NoMemory;
use record_history::{Dates, Record};
use rent_table::Plan;
use std::alloc::Global;
use voucher_core::{Closing, Line, close_lines};
use wait_list::Candidate;

/// Refused if it isn't the next month to close.
pub fn wrong_month(about: &Matter) -> Option<Refusal>
    ensures value { result ≡ wrong_month (matter_by about.now) }
    ensures by { result ≡ None → IfSome about.now.month (λ month. month ≤ last_office_month) }
{
    let month = about.month?;
    let next = next_month(about.register);
    refused_unless(next == Some(month), Refusal::WrongMonth { next })
}

fn next_month(register: &Register) -> Option<Month>
    ensures value { result ≡ next_month register.now.known }
    ensures by { IfSome result (λ month. month ≤ last_office_month) }
{
    let plan = register.plan()?;
    next_to_close(plan.first, last_month(register))
}

/// The month that was closed last.
fn last_month(register: &Register) -> Option<Month>
    ensures { result ≡ option_map (λ closing. closing.month) register.now.known.closing }
{
    let closing = register.closing()?;
    Some(closing.month)
}

/// Refused if the rents of a household are due.
pub fn rent_due(about: &Matter) -> Option<Refusal>
    ensures { result ≡ rent_due (matter_by about.now) }
{
    first_rent_due(about.register, last_of(about.month?))
}

/// By the day: the least such household, and its least day.
fn first_rent_due(register: &Register, last: Day) -> Option<Refusal>
    ensures { result ≡ first_household (λ household. household_rent_due (own_in register.now.known household) register.now.known.units register.now.known.rents (plan_day register.now.known) last household) (length register.now.known.households) }
{
    let mut due = None;
    for place in 0..register.households() {
        due = due_so_far(due, register, last, place + 1);
    }
    due
}

/// What was found before, or else that of the household.
fn due_so_far(
    found: Option<Refusal>,
    register: &Register,
    last: Day,
    household: u32,
) -> Option<Refusal>
    ensures { result ≡ option_or found (household_rent_due (own_in register.now.known household) register.now.known.units register.now.known.rents (plan_day register.now.known) last household) }
{
    match found {
        Some(_) => found,
        None => household_rent_due(register, last, household),
    }
}

/// The days before which nothing has changed since the last closing aren't looked at again.
fn household_rent_due(register: &Register, last: Day, household: u32) -> Option<Refusal>
    ensures { result ≡ household_rent_due (own_in register.now.known household) register.now.known.units register.now.known.rents (plan_day register.now.known) last household }
{
    let first = register.review_day(household);
    refusals::household_rent_due(register.history(), register.table(), first, last, household)
}

/// Refused if a household should have been certified anew.
pub fn overdue(about: &Matter) -> Option<Refusal>
    requires { IfSome about.now.month (λ month. month ≤ last_office_month) }
    ensures { result ≡ overdue (matter_by about.now) }
{
    refusals::overdue(about.register.history(), about.month?)
}

/// The lines that the next act makes. Only a closing makes some.
pub fn lines_of(
    alloc: Global,
    register: &Register,
    command: &Command,
) -> Result<Vec<Line>, NoMemory>
    requires { ClosesBy last_office_month command.now }
    ensures lines { IfOk result (λ lines. lines.items ≡ lines_of register.now.known command.now) }
    ensures few { IfOk result (λ lines. length lines.items < 2 ^ 32) }
{
    match command {
        Command::Close(close) => lines_of_close(alloc, register, close),
        _ => Ok(Vec::new(alloc)),
    }
}

fn lines_of_close(
    alloc: Global,
    register: &Register,
    close: &CloseAct,
) -> Result<Vec<Line>, NoMemory>
    requires { close.now.month ≤ last_office_month }
    ensures lines { IfOk result (λ lines. lines.items ≡ lines_of_close register.now.known close.now) }
    ensures few { IfOk result (λ lines. length lines.items < 2 ^ 32) }
{
    match register.plan() {
        Some(plan) => {
            let closing = closing_by(register, close, plan);
            close_lines(alloc, register.history(), &closing)
        }
        None => Ok(Vec::new(alloc)),
    }
}

/// The closing of the month by the next act.
fn closing_by(register: &Register, close: &CloseAct, plan: &Plan) -> Closing
    ensures value { result ≡ closing_by register.now.known close.now plan.now (register.now.known.count + 1) }
    ensures earlier { result.last_close ≤ result.act }
{
    Closing {
        closed: close.month,
        first_month: plan.first,
        last_close: last_close(register),
        act: register.count() + 1,
    }
}

/// The act of the last closing, and 0 where there was none.
fn last_close(register: &Register) -> u32
    ensures value { result ≡ last_close register.now.known }
    ensures earlier { result ≤ register.now.known.count }
{
    match register.closing() {
        Some(closing) => closing.act,
        None => 0,
    }
}
