//! What the types of a command say of its numbers and days.
//!
//! The range of a number behind a reference is known where it is read or passed on, so these functions pass each on.
//! They do nothing.

ghost use Rattle.std.specs.Prelude.{All, ◌≤◌};
ghost use Rattle.facts_core.specs.Facts.{FactsFit, IncomeFits, AssetFits, DisposalFits};
ghost use Rattle.command_forms.specs.Holdable.{IsHoldable, IsHoldableChange, IsNumber, IsDay, IsMonth, AreDates};

use book_rows::{Command, HouseholdChange};
use days_core::{Day, Month};
use facts_core::{Asset, Disposal, Facts, Income, Member};
use record_history::Dates;

/// A command that a program holds is one that it can hold.
pub fn held_command(command: &Command)
    ensures { IsHoldable command.now }
{
    match command {
        Command::Plan(_) => {}
        Command::Unit(_) => {}
        Command::Rents(rents) => held_day(rents.from),
        Command::Limits(limits) => held_day(limits.from),
        Command::Apply(_) => {}
        Command::Remove(remove) => held_number(remove.applicant),
        Command::Start(start) => {
            held_number(start.unit);
            held_day(start.from);
            held_facts(&start.facts);
        }
        Command::Admit(admit) => {
            held_number(admit.applicant);
            held_number(admit.unit);
            held_day(admit.from);
            held_facts(&admit.facts);
        }
        Command::AskTransfer(ask) => held_number(ask.household),
        Command::Household(act) => {
            held_number(act.household);
            held_number(act.seen);
            held_change(&act.change);
        }
        Command::Close(close) => held_month(close.month),
    }
}

fn held_change(change: &HouseholdChange)
    ensures { IsHoldableChange change.now }
{
    match change {
        HouseholdChange::Annual(annual) => {
            held_day(annual.from);
            held_facts(&annual.facts);
        }
        HouseholdChange::Interim(interim) => {
            held_dates(interim.dates);
            held_day(interim.from);
            held_facts(&interim.facts);
        }
        HouseholdChange::Resume(resume) => {
            held_day(resume.done);
            held_day(resume.from);
            held_facts(&resume.facts);
        }
        HouseholdChange::Gross(gross) => held_day(gross.from),
        HouseholdChange::Correct(correct) => {
            held_number(correct.target);
            held_day(correct.from);
            held_facts(&correct.facts);
        }
        HouseholdChange::Transfer(transfer) => {
            held_number(transfer.unit);
            held_day(transfer.from);
        }
        HouseholdChange::MoveOut(move_out) => held_day(move_out.last),
        HouseholdChange::Terminate(terminate) => held_day(terminate.from),
        HouseholdChange::Withdraw(withdraw) => held_number(withdraw.target),
    }
}

fn held_number(number: u32)
    ensures { IsNumber number }
{}

fn held_day(day: Day)
    ensures { IsDay day }
{}

fn held_month(month: Month)
    ensures { IsMonth month }
{}

fn held_dates(dates: Dates)
    ensures { AreDates dates }
{}

fn held_facts(facts: &Facts)
    ensures { FactsFit facts.now }
{
    held_number(facts.care_work);
    held_number(facts.care_school);
    held_number(facts.disability);
    held_number(facts.medical);
    held_number(facts.welfare);
    held_rows(facts.members.as_slice());
    held_rows(facts.incomes.as_slice());
    held_rows(facts.assets.as_slice());
    held_rows(facts.disposals.as_slice());
}

/// A row of facts.
trait Row {
    ghost fits: { Self → Type 0 };

    fn held(&self)
        ensures { fits self.now };
}

fn held_rows<T: Row>(rows: &[T])
    ensures { All T.fits rows.now }
{
    for row in rows {
        row.held();
    }
}

impl Row for Member {
    ghost use Rattle.days_core.specs.Calendar.{last_day};

    ghost fits = { λ person. person.born ≤ last_day };

    fn held(&self) {
        held_day(self.born);
    }
}

impl Row for Income {
    ghost fits = { IncomeFits };

    fn held(&self) {
        held_number(self.member);
        held_number(self.annual);
    }
}

impl Row for Asset {
    ghost fits = { AssetFits };

    fn held(&self) {
        held_number(self.value);
        held_number(self.income);
    }
}

impl Row for Disposal {
    ghost fits = { DisposalFits };

    fn held(&self) {
        held_day(self.day);
        held_number(self.value);
        held_number(self.received);
    }
}
