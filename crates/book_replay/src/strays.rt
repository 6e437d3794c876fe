//! Rows that no act made.

ghost use Rattle.std.specs.Prelude.{◌≡◌, ◌&&◌, nat_le, map};
ghost use Rattle.office_step.specs.Valid.{stray};

use record_history::Record;
use voucher_core::Line;

/// The act of the first record that isn't of one of so many acts, or that stands after one of a later act.
pub fn stray_record(count: usize, records: &[Record]) -> Option<u32>
    ensures { result ≡ stray count 0 (map (λ r. r.act) records.now) }
{
    let mut last = 0;
    for made in records {
        if !is_next(count, last, made.act) {
            return Some(made.act);
        }
        last = made.act;
    }
    None
}

/// The act of the first line that isn't of one of so many acts, or that stands after one of a later act.
pub fn stray_line(count: usize, lines: &[Line]) -> Option<u32>
    ensures { result ≡ stray count 0 (map (λ line. line.act) lines.now) }
{
    let mut last = 0;
    for line in lines {
        if !is_next(count, last, line.act) {
            return Some(line.act);
        }
        last = line.act;
    }
    None
}

// Whether a row of the act may stand after one of the last act.
fn is_next(count: usize, last: u32, act: u32) -> bool
    ensures { result ≡ (nat_le 1 act && (nat_le last act && nat_le act count)) }
{
    1 <= act && last <= act && act as usize <= count
}
