//! What a certification is answered with.

ghost use Rattle.std.specs.Prelude.{◌≡◌, ◌≤◌};
ghost use Rattle.payment_rules.specs.Payment.{family_share_of};
ghost use Rattle.office_step.specs.Reply.{certified};

use days_core::Rents;
use office_step::Made;
use record_history::{Dates, Record};

/// The reply to the act that made the record, with tenant rent and reimbursement by what its assistance leaves of its rents.
pub fn certified(held: &Record) -> Made
    requires rent { held.now.rents.contract_rent ≤ 99999 }
    requires utility { held.now.rents.utility ≤ 9999 }
    ensures { result ≡ certified held.now }
{
    let share = family_share(held.assistance, held.rents);
    Made::Certified {
        assistance: held.assistance,
        household: held.household,
        target: held.number,
        reimbursement: held.rents.utility.saturating_sub(share),
        tenant_rent: share.saturating_sub(held.rents.utility),
        ttp: held.ttp,
    }
}

/// What the family bears of the gross rent: what the office doesn't claim of it.
fn family_share(assistance: u32, rents: Rents) -> u32
    requires rent { rents.contract_rent ≤ 99999 }
    requires utility { rents.utility ≤ 9999 }
    ensures { result ≡ family_share_of assistance rents }
{
    (rents.contract_rent + rents.utility).saturating_sub(assistance)
}
