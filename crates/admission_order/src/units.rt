//! A unit, found by its number.

ghost use Rattle.std.specs.Prelude.{◌≡◌, ◌≤◌, option_copied, IfSome};
ghost use Rattle.rent_table.specs.Table.{unit_at};

use office_register::Register;
use rent_table::Unit;

/// The unit of that number.
pub fn unit_in(register: &Register, number: u32) -> Option<&Unit>
    ensures value { option_copied result ≡ unit_at register.now.known.units number }
    ensures bedrooms { IfSome (option_copied result) (λ unit. unit.bedrooms ≤ 5) }
{
    register.table().unit(number)
}
