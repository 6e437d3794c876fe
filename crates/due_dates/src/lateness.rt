//! When a household is overdue.

ghost use Rattle.std.specs.Prelude.{◌≡◌};
ghost use Rattle.due_dates.specs.Overdue.{is_overdue};

use days_core::{Day, Month, month_of};

/// How many months a household's last move-in, initial or annual certification serves.
const SERVES_MONTHS: u32 = 15;

/// Whether a household is overdue for the month: its last move-in, initial or annual certification, of that
/// first day, begins in a month that is fifteen or more months before (own rule).
pub fn overdue(base: Day, month: Month) -> bool
    ensures { result ≡ is_overdue base month }
{
    month_of(base).number() + SERVES_MONTHS <= month.number()
}
