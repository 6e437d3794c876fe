//! Rounding.

ghost use Rattle.std.specs.Prelude.{◌≡◌, ◌+◌, ◌*◌, ◌^◌, ◌<◌};
ghost use Rattle.days_core.specs.Rounding.{round_half_up};

/// The whole number nearest to `numerator / denominator`. Own rule: half is rounded up.
pub fn round_half_up(numerator: u64, denominator: u64) -> u64
    requires above_zero { 0 < denominator }
    requires fits { 2 * numerator + 2 * denominator < 2 ^ 64 }
    ensures { result ≡ round_half_up numerator denominator }
{
    (2 * numerator + denominator) / (2 * denominator)
}
