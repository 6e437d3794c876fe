//! Acts on applicants and admissions, read.

ghost use Rattle.std.specs.Prelude.{◌≡◌, true, IfOk};
ghost use Rattle.serde_json.specs.View.{view};
ghost use Rattle.json_form.specs.Gives.{Gives};
ghost use Rattle.book_rows.specs.Fit.{is_fit};
ghost use Rattle.command_forms.specs.Applicants.{apply_at, remove_at, start_at, admit_at};

use crate::forms::Name;
use book_rows::{AdmitAct, ApplyAct, Command, RemoveAct, StartAct};
use json_form::{ArrayUpTo, FormFault, Within, field, field_by, number_field};
use serde_json::Value;
use std::alloc::Global;

#[tactic(auto, unfolding(command_forms::specs::Applicants::apply_at))]
pub fn apply_of(alloc: Global, value: &Value) -> Result<Command, FormFault>
    ensures exact { Gives (λ asked. asked) result (apply_at (view value.now)) }
    ensures fit { IfOk result (λ asked. is_fit asked ≡ true) }
{
    let name = field_by(alloc, value, "name", &Name { most: 40 })?;
    let size = number_field(alloc, value, "size", 1, 12)?;
    let persons = number_field(alloc, value, "persons", size, 16)?;
    let codes = ArrayUpTo {
        longest: 16,
        each: Within { least: 1, most: 16 },
    };
    let preferences = field_by(alloc, value, "preferences", &codes)?;
    let accessible = field(alloc, value, "accessible")?;
    let annual = number_field(alloc, value, "annual", 0, 9_999_999)?;
    Ok(Command::Apply(ApplyAct {
        name,
        size,
        persons,
        preferences,
        accessible,
        annual,
    }))
}

#[tactic(auto, unfolding(command_forms::specs::Applicants::remove_at))]
pub fn remove_of(alloc: Global, value: &Value) -> Result<Command, FormFault>
    ensures exact { Gives (λ asked. asked) result (remove_at (view value.now)) }
    ensures fit { IfOk result (λ asked. is_fit asked ≡ true) }
{
    let applicant = field(alloc, value, "applicant")?;
    Ok(Command::Remove(RemoveAct { applicant }))
}

#[tactic(auto, unfolding(command_forms::specs::Applicants::start_at))]
pub fn start_of(alloc: Global, value: &Value) -> Result<Command, FormFault>
    ensures exact { Gives (λ asked. asked) result (start_at (view value.now)) }
    ensures fit { IfOk result (λ asked. is_fit asked ≡ true) }
{
    let name = field_by(alloc, value, "name", &Name { most: 40 })?;
    let unit = field(alloc, value, "unit")?;
    let from = field(alloc, value, "from")?;
    let facts = field(alloc, value, "facts")?;
    Ok(Command::Start(StartAct {
        name,
        unit,
        from,
        facts,
    }))
}

#[tactic(auto, unfolding(command_forms::specs::Applicants::admit_at))]
pub fn admit_of(alloc: Global, value: &Value) -> Result<Command, FormFault>
    ensures exact { Gives (λ asked. asked) result (admit_at (view value.now)) }
    ensures fit { IfOk result (λ asked. is_fit asked ≡ true) }
{
    let applicant = field(alloc, value, "applicant")?;
    let unit = field(alloc, value, "unit")?;
    let from = field(alloc, value, "from")?;
    let facts = field(alloc, value, "facts")?;
    Ok(Command::Admit(AdmitAct {
        applicant,
        unit,
        from,
        facts,
    }))
}
