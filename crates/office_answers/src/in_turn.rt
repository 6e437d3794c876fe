//! Lines in the order of their closings, of the months that they are for, and of their households.

ghost use Rattle.std.specs.Prelude.{◌≡◌, ◌≤◌, ◌<◌, ℕ, true, false, length, filter, slice_index_or, IfOk};
ghost use Rattle.std.specs.List.Sorted.{IsPartitionPoint};
ghost use Rattle.voucher_core.specs.declared.line.Line.{Line as LineOf};
ghost use Rattle.voucher_core.specs.Lines.{is_for};
ghost use Rattle.office_answers.specs.InTurn.{turn_of, is_before, StandInTurn};
ghost use Rattle.office_answers.specs.Vouchers.{lines_of_closing};

use days_core::Month;
use plain_data::NoMemory;
use std::alloc::Global;
use voucher_core::Line;

/// The lines of the closing of the month, which stand together.
pub fn closing_in_turn(lines: &[Line], month: Month) -> &[Line]
    requires { StandInTurn lines.now }
    ensures { result.now ≡ lines_of_closing month lines.now }
{
    let rest = &lines[how_many_before(lines, month.number(), 0)..];
    &rest[..how_many_before(rest, month.number() + 1, 0)]
}

/// The lines that pay the household for the month: of each closing those that stand together.
pub fn paying_in_turn(
    alloc: Global,
    lines: &[Line],
    household: u32,
    month: Month,
) -> Result<Vec<Line>, NoMemory>
    requires { StandInTurn lines.now }
    ensures { IfOk result (λ paying. paying.items ≡ filter (is_for household month) lines.now) }
{
    let mut paying = Vec::new(alloc);
    let mut at = 0;
    while at < lines.len() {
        let line = lines[at];
        if is_for(&line, household, month) {
            paying.push(line)?;
        }
        at = next_place(lines, at, household, month);
    }
    Ok(paying)
}

/// Whether the line pays the household for the month.
pub fn is_for(line: &Line, household: u32, month: Month) -> bool
    ensures { result ≡ is_for household month line.now }
{
    line.household == household && line.for_month == month
}

/// The next place behind that one at which a line for the household and month can stand: of the same closing, where its
/// line stands no later than they, and else of the one after.
fn next_place(lines: &[Line], at: usize, household: u32, month: Month) -> usize
    requires at { at < length lines.now }
    requires in_turn { StandInTurn lines.now }
    ensures after { at < result }
    ensures within { result ≤ length lines.now }
    ensures passed { (k : ℕ) (d : LineOf) → at < k → k < result → is_for household month (slice_index_or lines.now k d) ≡ false }
{
    let line = lines[at];
    let wanted = turn_of(month, household);
    let closing = if turn_of(line.for_month, line.household) <= wanted {
        line.month.number()
    } else {
        line.month.number() + 1
    };
    how_many_before(lines, closing, wanted).max(at + 1)
}

/// How many of them come before that turn of that closing.
fn how_many_before(lines: &[Line], closed: u32, turn: u64) -> usize
    requires { StandInTurn lines.now }
    ensures bound { result ≤ length lines.now }
    ensures point { IsPartitionPoint (λ l. is_before closed turn l ≡ true) (λ l. is_before closed turn l ≡ false) lines.now result }
{
    lines.partition_point(|line| is_before(line, closed, turn))
}

fn is_before(line: &Line, closed: u32, turn: u64) -> bool
    ensures { result ≡ is_before closed turn line.now }
{
    let month = line.month.number();
    month < closed || month == closed && turn_of(line.for_month, line.household) < turn
}

/// The place of a month and household among those of one closing.
pub fn turn_of(month: Month, household: u32) -> u64
    ensures { result ≡ turn_of month household }
{
    u64::from(month.number()) * 4_294_967_296 + u64::from(household)
}
