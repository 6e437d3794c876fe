//! Refusals of numbers that name nothing, and of what a clerk hasn't seen.

ghost use Rattle.std.specs.Prelude.{◌≡◌, ◌&&◌, nat_le};
ghost use Rattle.office_step.specs.declared.refusal.Refusal.TheVariants as refusal;
ghost use Rattle.office_step.specs.declared.refusal.Named.TheVariants as named;
ghost use Rattle.office_step.specs.Refusals.{refused_unless};

use office_step::{Named, Refusal};

/// Refused where there is no such household. Households are numbered from 1 to the count.
pub fn no_household(count: u32, household: u32) -> Option<Refusal>
    ensures { result ≡ refused_unless (nat_le 1 household && nat_le household count) (refusal.NoSuch named.Household household) }
{
    if 1 <= household && household <= count {
        return None;
    }
    Some(Refusal::NoSuch {
        what: Named::Household,
        id: household,
    })
}
