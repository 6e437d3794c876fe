//! A command, read of a value.

ghost use Rattle.std.specs.Prelude.{◌≡◌, true, map, IfOk};
ghost use Rattle.serde_json.specs.View.{view};
ghost use Rattle.json_form.specs.Gives.{Gives};
ghost use Rattle.json_form.specs.Written.{names_of};
ghost use Rattle.book_rows.specs.Fit.{is_fit};
ghost use Rattle.command_forms.specs.Commands.{fields_at, command_at, command_members};

use crate::applicants::{admit_of, apply_of, remove_of, start_of};
use crate::property::{limits_of, plan_of, rents_of, unit_of};
use book_rows::{CloseAct, Command};
use change_text::{ask_transfer_of, household_names, household_of};
use command_forms::Kind;
use json_form::{FormFault, closed, field, object};
use serde_json::Value;
use std::alloc::Global;

/// Reads the command of a value. The fault is that of every form: `BadField` with the path of the first place that
/// doesn't fit, seen from the value.
#[tactic(auto, unfolding(command_forms::specs::Commands::command_at))]
pub fn command_of_value(alloc: Global, value: &Value) -> Result<Command, FormFault>
    ensures exact { Gives (λ asked. asked) result (command_at (view value.now)) }
    ensures fit { IfOk result (λ asked. is_fit asked ≡ true) }
{
    object(alloc, value)?;
    let kind = field(alloc, value, "kind")?;
    let asked = fields_of(alloc, value, kind)?;
    closed(alloc, value, names_of(&asked), asked)
}

#[tactic(auto, unfolding(command_forms::specs::Commands::fields_at))]
fn fields_of(alloc: Global, value: &Value, kind: Kind) -> Result<Command, FormFault>
    ensures exact { Gives (λ asked. asked) result (fields_at kind (view value.now)) }
    ensures fit { IfOk result (λ asked. is_fit asked ≡ true) }
{
    match kind {
        Kind::Plan => plan_of(alloc, value),
        Kind::Unit => unit_of(alloc, value),
        Kind::Rents => rents_of(alloc, value),
        Kind::Limits => limits_of(alloc, value),
        Kind::Apply => apply_of(alloc, value),
        Kind::Remove => remove_of(alloc, value),
        Kind::Start => start_of(alloc, value),
        Kind::Admit => admit_of(alloc, value),
        Kind::AskTransfer => ask_transfer_of(alloc, value),
        Kind::Household(change) => household_of(alloc, value, change),
        Kind::Close => {
            let month = field(alloc, value, "month")?;
            Ok(Command::Close(CloseAct { month }))
        }
    }
}

/// The names of a command's members, in their byte order.
#[tactic(auto, unfolding(command_forms::specs::Commands::command_members, command_forms::specs::Property::plan_members, command_forms::specs::Property::unit_members, command_forms::specs::Property::rents_members, command_forms::specs::Property::limits_members, command_forms::specs::Applicants::apply_members, command_forms::specs::Applicants::remove_members, command_forms::specs::Applicants::start_members, command_forms::specs::Applicants::admit_members, command_forms::specs::Changes::ask_transfer_members))]
fn names_of(command: &Command) -> &'static [&'static str]
    ensures { map (λ name. name.now) result.now ≡ names_of (command_members command.now) }
{
    match command {
        Command::Plan(_) => &[
            "bounds",
            "early",
            "expected",
            "first",
            "fiscal_month",
            "kind",
            "method",
            "passbook",
            "ranks",
            "report_days",
        ],
        Command::Unit(_) => &["accessible", "bedrooms", "group", "kind", "name"],
        Command::Rents(_) => &["contract_rent", "from", "group", "kind", "utility"],
        Command::Limits(_) => &["extremely_low", "from", "kind", "low", "very_low"],
        Command::Apply(_) => &[
            "accessible",
            "annual",
            "kind",
            "name",
            "persons",
            "preferences",
            "size",
        ],
        Command::Remove(_) => &["applicant", "kind"],
        Command::Start(_) => &["facts", "from", "kind", "name", "unit"],
        Command::Admit(_) => &["applicant", "facts", "from", "kind", "unit"],
        Command::AskTransfer(_) => &["accessible", "household", "kind", "wanted"],
        Command::Household(act) => household_names(act),
        Command::Close(_) => &["kind", "month"],
    }
}
