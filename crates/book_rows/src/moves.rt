//! Acts by which a household moves, or leaves.

use days_core::Day;

/// Says whether a household wants another unit.
#[derive(Clone, Copy, Debug, PartialEq, Eq)]
pub struct AskTransferAct {
    pub household: u32,
    pub wanted: bool,
    /// Whether it needs an accessible one.
    pub accessible: bool,
}

/// Moves a household into another unit.
#[derive(Clone, Copy, Debug, PartialEq, Eq)]
pub struct TransferAct {
    pub unit: u32,
    pub from: Day,
}

/// Tells that a household moved out.
#[derive(Clone, Copy, Debug, PartialEq, Eq)]
pub struct MoveOutAct {
    /// Its last day in the unit.
    pub last: Day,
}

/// Ends a household's assistance, though it stays in its unit.
#[derive(Clone, Copy, Debug, PartialEq, Eq)]
pub struct TerminateAct {
    pub from: Day,
}

/// Withdraws a record, so that it counts no more.
#[derive(Clone, Copy, Debug, PartialEq, Eq)]
pub struct WithdrawAct {
    /// The number of the record that is withdrawn.
    pub target: u32,
}
