//! Commands.

use crate::applicants::{ApplyAct, RemoveAct};
use crate::certifications::{AdmitAct, StartAct};
use crate::closings::CloseAct;
use crate::household::HouseholdAct;
use crate::moves::AskTransferAct;
use crate::property::{LimitsAct, RentsAct, UnitAct};
use rent_table::Plan;

/// What a clerk asks the office to do.
///
/// Numbers of applicants, households, units and records are any that 32 bits hold: whether they name something is the
/// office's matter.
#[derive(Drop)]
pub enum Command {
    Plan(Plan),
    Unit(UnitAct),
    Rents(RentsAct),
    Limits(LimitsAct),
    Apply(ApplyAct),
    Remove(RemoveAct),
    Start(StartAct),
    Admit(AdmitAct),
    AskTransfer(AskTransferAct),
    Household(HouseholdAct),
    Close(CloseAct),
}

impl Command {
    /// Frees it. It stands apart, so that no other proof has a case for each kind of command that goes out of use.
    pub fn let_go(self) {}
}
