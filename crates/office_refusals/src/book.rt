//! Refusals by the book as a whole: its plan, and how much it holds.

ghost use Rattle.std.specs.Prelude.{◌≡◌};
ghost use Rattle.office_step.specs.Refusals.{lines_full};

use office_step::Refusal;

/// Refused where the lines held and those of the closing are more than the book may hold.
pub fn lines_full(held: u32, more: u32, capacity: u32) -> Option<Refusal>
    ensures { result ≡ lines_full held more capacity }
{
    if u64::from(held) + u64::from(more) > u64::from(capacity) {
        Some(Refusal::LinesFull { lines: held, more })
    } else {
        None
    }
}
