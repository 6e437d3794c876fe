//! Acts on applicants and admissions, as members.

ghost use Rattle.std.specs.Prelude.{◌≡◌, IfOk};
ghost use Rattle.serde_json.specs.View.{members_view};
ghost use Rattle.command_forms.specs.Applicants.{apply_members, remove_members, start_members, admit_members};

use book_rows::{AdmitAct, ApplyAct, RemoveAct, StartAct};
use json_form::Members;
use plain_data::NoMemory;
use std::alloc::Global;

#[tactic(auto, unfolding(command_forms::specs::Applicants::apply_members))]
pub fn apply_members(alloc: Global, apply: &ApplyAct) -> Result<Members, NoMemory>
    ensures { IfOk result (λ all. members_view all.members.entries ≡ apply_members apply.now) }
{
    Members::new(alloc)
        .with("accessible", &apply.accessible)?
        .with("annual", &apply.annual)?
        .with("name", &apply.name)?
        .with("persons", &apply.persons)?
        .with("preferences", &apply.preferences)?
        .with("size", &apply.size)
}

#[tactic(auto, unfolding(command_forms::specs::Applicants::remove_members))]
pub fn remove_members(alloc: Global, remove: &RemoveAct) -> Result<Members, NoMemory>
    ensures { IfOk result (λ all. members_view all.members.entries ≡ remove_members remove.now) }
{
    Members::new(alloc).with("applicant", &remove.applicant)
}

#[tactic(auto, unfolding(command_forms::specs::Applicants::start_members))]
pub fn start_members(alloc: Global, start: &StartAct) -> Result<Members, NoMemory>
    ensures { IfOk result (λ all. members_view all.members.entries ≡ start_members start.now) }
{
    Members::new(alloc)
        .with("facts", &start.facts)?
        .with("from", &start.from)?
        .with("name", &start.name)?
        .with("unit", &start.unit)
}

#[tactic(auto, unfolding(command_forms::specs::Applicants::admit_members))]
pub fn admit_members(alloc: Global, admit: &AdmitAct) -> Result<Members, NoMemory>
    ensures { IfOk result (λ all. members_view all.members.entries ≡ admit_members admit.now) }
{
    Members::new(alloc)
        .with("applicant", &admit.applicant)?
        .with("facts", &admit.facts)?
        .with("from", &admit.from)?
        .with("unit", &admit.unit)
}
