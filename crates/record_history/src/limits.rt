//! The most that an office holds.

ghost use Rattle.std.specs.Prelude.{◌≡◌};
ghost use Rattle.record_history.specs.Limits.{most_acts, most_lines};

/// The most acts, and with them records and households (own rule).
pub const MOST_ACTS: u32 = 100_000;

/// The most lines of closings (own rule).
pub const MOST_LINES: u32 = 4_000_000;

/// The constants are those of the contracts. It does nothing.
pub fn limits_are_named()
    ensures acts { MOST_ACTS ≡ most_acts }
    ensures lines { MOST_LINES ≡ most_lines }
{}
