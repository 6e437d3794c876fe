//! The rents of a unit.

/// What a unit costs a month, in whole dollars.
#[derive(Clone, Copy, Debug, PartialEq, Eq, Hash)]
pub struct Rents {
    /// The rent that the contract gives the owner.
    pub contract_rent: u32,
    /// The allowance for utilities that the tenant pays.
    pub utility: u32,
}
