//! The book of an office: the commands that it is given, and the rows of acts, records and lines that it holds.
#![tactic(auto)]

mod applicants;
mod certifications;
mod closings;
mod command;
mod household;
mod moves;
mod names;
mod property;
mod rows;
mod same;
mod tables;

pub use applicants::{ApplyAct, RemoveAct};
pub use certifications::{
    AdmitAct, AnnualAct, CorrectAct, GrossAct, InterimAct, ResumeAct, StartAct,
};
pub use closings::CloseAct;
pub use command::Command;
pub use household::{HouseholdAct, HouseholdChange};
pub use moves::{AskTransferAct, MoveOutAct, TerminateAct, TransferAct, WithdrawAct};
pub use names::is_name;
pub use property::{LimitsAct, RentsAct, UnitAct};
pub use rows::{ActRow, Batch, Table};
pub use same::{same_act, same_line, same_record};
pub use tables::Tables;
