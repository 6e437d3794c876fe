//! On what the record of a command rests.

ghost use Rattle.std.specs.Prelude.{◌≡◌};
ghost use Rattle.office_step.specs.Basis.{basis_in, basis_of};
ghost use Rattle.office_refusals.specs.Basis.{basis_by};

use book_rows::{Command, HouseholdChange};
use facts_core::Facts;

/// What a record certifies comes of facts, or of what was certified before, or it certifies nothing.
#[derive(Clone, Copy)]
pub enum Basis<'a> {
    Facts(&'a Facts),
    Carried,
    Nothing,
}

/// On what the record of the command rests.
pub fn basis_of(command: &Command) -> Basis<'_>
    ensures { basis_by result ≡ basis_of command.now }
{
    match command {
        Command::Start(start) => Basis::Facts(&start.facts),
        Command::Admit(admit) => Basis::Facts(&admit.facts),
        Command::Household(act) => basis_in(&act.change),
        _ => Basis::Nothing,
    }
}

/// The same of a change of the household.
fn basis_in(change: &HouseholdChange) -> Basis<'_>
    ensures { basis_by result ≡ basis_in change.now }
{
    match change {
        HouseholdChange::Annual(annual) => Basis::Facts(&annual.facts),
        HouseholdChange::Interim(interim) => Basis::Facts(&interim.facts),
        HouseholdChange::Resume(resume) => Basis::Facts(&resume.facts),
        HouseholdChange::Correct(correct) => Basis::Facts(&correct.facts),
        HouseholdChange::Gross(_) | HouseholdChange::Transfer(_) => Basis::Carried,
        _ => Basis::Nothing,
    }
}
