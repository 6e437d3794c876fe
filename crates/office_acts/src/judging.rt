//! A command is judged: its tests in their one order, and then what it makes.

ghost use Rattle.std.specs.Prelude.{◌≡◌, ◌≤◌, true, IfSome, IfOk, IsOk};
ghost use Rattle.days_core.specs.OfficeDays.{last_office_day, last_office_month};
ghost use Rattle.record_history.specs.Held.{IsWithin};
ghost use Rattle.book_rows.specs.Fit.{is_fit};
ghost use Rattle.admission_order.specs.Below.office_register.Registered.{HasDates};
ghost use Rattle.admission_order.specs.Below.office_register.Accepted.{IsAccepted};
ghost use Rattle.admission_order.specs.Below.office_step.Made.{record_in, record_of};
ghost use Rattle.admission_order.specs.Below.office_step.Refusals.{first_of};
ghost use Rattle.admission_order.specs.Below.office_step.Against.{tests_on, refused_by};
ghost use Rattle.office_acts.specs.Judged.{judged_by, IsOfCommand, IsMade, IsPlaced, ClosesBy};
ghost use Rattle.office_acts.specs.Matter.{matter_by};
ghost use Rattle.record_history.specs.Limits.{most_acts};

use crate::admission::{ineligible, no_assistance, not_next};
use crate::closing::{overdue, rent_due, wrong_month};
use crate::headings::heading_in;
use crate::matter::{Matter, matter_of};
use crate::names::{book_full, no_plan, no_such, plan_given, stale, unseen};
use crate::places::{disorder, name_taken, size_misfit, unit_taken};
use crate::records::record_in;
use crate::terms::{day_range, facts_rule, no_limits, no_rent, not_live, wrong_day};
use admission_order::office_refusals::Basis;
use admission_order::office_register::Register;
use admission_order::office_step::{MoveIn, Refusal};
use book_rows::Command;
use days_core::{Day, Month};
use plain_data::Text;
use record_history::{Dates, Kind, Record};
use wait_list::Candidate;

/// The command is refused, if the test stands.
macro_rules! refused {
    ($test:expr) => {
        if let Some(refusal) = $test {
            return Err(refusal);
        }
    };
}

/// What the office does with the command on the day, where the book may hold so many acts: it refuses, or else makes a
/// record or none. Days up to 2099-12-31.
pub fn judge(
    register: &Register,
    most: u32,
    today: Day,
    command: &Command,
) -> Result<Option<Record>, Refusal>
    requires fit { is_fit command.now ≡ true }
    requires today { today ≤ last_office_day }
    requires most { most ≤ most_acts }
    ensures judged { result ≡ judged_by (refused_by register.now.known most today command.now) (record_of register.now.known command.now) }
    ensures accepted { IfOk result (λ made. IsAccepted register.now.known command.now made) }
    ensures placed { IfOk result (λ made. IfSome made (IsPlaced register.now.known)) }
    ensures within { IfOk result (λ made. IfSome made IsWithin) }
    ensures dates { IfOk result (λ made. IfSome made HasDates) }
    ensures month { IsOk result → ClosesBy last_office_month command.now }
{
    judge_any(register, most, today, command)
}

fn judge_any(
    register: &Register,
    most: u32,
    today: Day,
    command: &Command,
) -> Result<Option<Record>, Refusal>
    requires { today ≤ last_office_day }
    ensures judged { result ≡ judged_by (refused_by register.now.known most today command.now) (record_of register.now.known command.now) }
    ensures made { IfOk result (λ made. IfSome made (IsMade register.now.known)) }
    ensures month { IsOk result → ClosesBy last_office_month command.now }
{
    let about = matter_of(register, command);
    // The check of loans refuses a type that the function doesn't name.
    let (_name, _basis): (Option<&Text>, Basis) = (about.name, about.basis);
    judge_matter(&about, most, today)
}

/// The refusals in their one order.
fn judge_matter(about: &Matter, most: u32, today: Day) -> Result<Option<Record>, Refusal>
    requires today { today ≤ last_office_day }
    requires command { IsOfCommand (matter_by about.now) }
    ensures judged { result ≡ judged_by (first_of (tests_on most today (matter_by about.now))) (record_in (matter_by about.now)) }
    ensures made { IfOk result (λ made. IfSome made (IsMade about.now.register.now.known)) }
    ensures month { IsOk result → IfSome about.now.month (λ month. month ≤ last_office_month) }
{
    refused!(no_plan(about));
    refused!(plan_given(about));
    refused!(book_full(most, about));
    refused!(no_such(about));
    refused!(stale(about));
    refused!(unseen(about));
    refused!(facts_rule(about));
    refused!(day_range(today, about));
    let heading = heading_in(about);
    refused!(no_rent(about, &heading));
    refused!(no_limits(about, &heading));
    refused!(not_live(about));
    let made = record_in(about, &heading);
    refused!(wrong_day(about, &made));
    refused!(disorder(about, &made));
    refused!(name_taken(about));
    refused!(size_misfit(about, &made));
    refused!(unit_taken(about, &made));
    refused!(not_next(about));
    refused!(ineligible(about, &made));
    refused!(no_assistance(about, &made));
    refused!(wrong_month(about));
    refused!(rent_due(about));
    refused!(overdue(about));
    Ok(made)
}
