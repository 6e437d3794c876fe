//! Acts on a household that there is.

use crate::certifications::{AnnualAct, CorrectAct, GrossAct, InterimAct, ResumeAct};
use crate::moves::{MoveOutAct, TerminateAct, TransferAct, WithdrawAct};

/// An act on a household that there is, by a clerk who knows its records up to one of them.
#[derive(Drop)]
pub struct HouseholdAct {
    pub household: u32,
    /// The number of the newest record that the clerk saw of the household.
    pub seen: u32,
    pub change: HouseholdChange,
}

/// What is done with the household.
#[derive(Drop)]
pub enum HouseholdChange {
    Annual(AnnualAct),
    Interim(InterimAct),
    Resume(ResumeAct),
    Gross(GrossAct),
    Correct(CorrectAct),
    Transfer(TransferAct),
    MoveOut(MoveOutAct),
    Terminate(TerminateAct),
    Withdraw(WithdrawAct),
}
