//! What lines come to.

ghost use Rattle.std.specs.Prelude.{◌≡◌, ◌≤◌, pos, negsuc, ◌≤ℤ◌, length};
ghost use Rattle.voucher_core.specs.Lines.{total};
ghost use Rattle.record_history.specs.Limits.{most_lines};

use crate::Line;

/// The amounts of lines together, in whole dollars; of at most 4,000,000 lines.
pub fn total(lines: &[Line]) -> i64
    requires { length lines.now ≤ most_lines }
    ensures { result ≡ total lines.now }
{
    let mut total = 0;
    for line in lines {
        total += amount_of(line);
    }
    total
}

fn amount_of(line: &Line) -> i64
    ensures value { result ≡ line.now.amount }
    ensures least { negsuc 2147483647 ≤ℤ result }
    ensures most { result ≤ℤ pos 2147483647 }
{
    i64::from(line.amount)
}
