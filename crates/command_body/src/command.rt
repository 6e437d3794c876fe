//! A command as a value.

ghost use Rattle.std.specs.Prelude.{◌≡◌, IfOk};
ghost use Rattle.serde_json.specs.View.{view, members_view};
ghost use Rattle.command_forms.specs.Kinds.{word_of};
ghost use Rattle.command_forms.specs.Commands.{field_members, command_data};

use crate::applicants::{admit_members, apply_members, remove_members, start_members};
use crate::property::{limits_members, plan_members, rents_members, unit_members};
use book_rows::Command;
use change_text::{ask_transfer_members, change_word, household_members};
use json_form::{Exact, Members};
use plain_data::NoMemory;
use std::alloc::Global;

/// Writes the command as a value.
#[tactic(auto, unfolding(command_forms::specs::Commands::command_members))]
pub fn exact_of(alloc: Global, command: &Command) -> Result<Exact, NoMemory>
    ensures { IfOk result (λ exact. view exact.value ≡ command_data command.now) }
{
    let members = members_of(alloc, command)?.with("kind", &word_of(command))?;
    Ok(members.done())
}

fn members_of(alloc: Global, command: &Command) -> Result<Members, NoMemory>
    ensures { IfOk result (λ all. members_view all.members.entries ≡ field_members command.now) }
{
    match command {
        Command::Plan(plan) => plan_members(alloc, plan),
        Command::Unit(unit) => unit_members(alloc, unit),
        Command::Rents(rents) => rents_members(alloc, rents),
        Command::Limits(limits) => limits_members(alloc, limits),
        Command::Apply(apply) => apply_members(alloc, apply),
        Command::Remove(remove) => remove_members(alloc, remove),
        Command::Start(start) => start_members(alloc, start),
        Command::Admit(admit) => admit_members(alloc, admit),
        Command::AskTransfer(ask) => ask_transfer_members(alloc, ask),
        Command::Household(act) => household_members(alloc, act),
        Command::Close(close) => Members::new(alloc).with("month", &close.month),
    }
}

/// The word for the kind of a command.
fn word_of(command: &Command) -> &'static str
    ensures { result.now ≡ word_of command.now }
{
    match command {
        Command::Plan(_) => "plan",
        Command::Unit(_) => "unit",
        Command::Rents(_) => "rents",
        Command::Limits(_) => "limits",
        Command::Apply(_) => "apply",
        Command::Remove(_) => "remove",
        Command::Start(_) => "start",
        Command::Admit(_) => "admit",
        Command::AskTransfer(_) => "ask_transfer",
        Command::Household(act) => change_word(&act.change),
        Command::Close(_) => "close",
    }
}
