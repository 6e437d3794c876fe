//! What a payment is made of.

/// A month's payment for a unit, in whole dollars.
#[derive(Clone, Copy, Debug, PartialEq, Eq, Hash)]
pub struct Payment {
    /// The total tenant payment.
    pub ttp: u32,
    /// What the family pays the owner.
    pub tenant_rent: u32,
    /// What the family is paid back for its utilities.
    pub reimbursement: u32,
    /// What the office claims.
    pub assistance: u32,
}
