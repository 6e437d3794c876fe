//! What was requested for a month, and what was paid.

ghost use Rattle.std.specs.Prelude.{◌≡◌, ◌≤◌, ◌==◌, not, length, filter, option_copied, IfOk};
ghost use Rattle.voucher_core.specs.Lines.{is_for};
ghost use Rattle.office_answers.specs.Answered.{Answers};
ghost use Rattle.office_answers.specs.Vouchers.{is_closed, lines_of_closing, own_lines, adjusting_lines, voucher_of, voucher_answer, paid_answer};
ghost use Rattle.record_history.specs.Limits.{most_lines};

use crate::in_turn::{closing_in_turn, paying_in_turn};
use crate::{Answer, Asked, BookLines, Voucher};
use admission_order::office_refusals::no_household;
use admission_order::office_register::Register;
use admission_order::office_step::Closed;
use days_core::Month;
use plain_data::{Listed, NoMemory};
use rent_table::Plan;
use std::alloc::Global;
use voucher_core::{Line, total};

pub fn voucher_answer(
    alloc: Global,
    register: &Register,
    lines: &BookLines,
    month: Month,
) -> Result<Answer, Asked>
    requires { length lines.now ≤ most_lines }
    ensures { Answers (voucher_answer register.now.known lines.now month) result }
{
    if !is_closed(register.plan(), register.closing(), month) {
        return Ok(Answer::Voucher(None));
    }
    let voucher = voucher_of(alloc, lines, month)?;
    Ok(Answer::Voucher(Some(voucher)))
}

fn is_closed(plan: Option<&Plan>, closing: Option<Closed>, month: Month) -> bool
    ensures { result ≡ is_closed (option_copied plan.entry) closing month }
{
    match (plan, closing) {
        (Some(plan), Some(closing)) => plan.first <= month && month <= closing.month,
        _ => false,
    }
}

fn voucher_of(alloc: Global, lines: &BookLines, month: Month) -> Result<Voucher, NoMemory>
    requires { length lines.now ≤ most_lines }
    ensures { IfOk result (λ voucher. voucher ≡ voucher_of month lines.now) }
{
    let lines = lines_of_closing(alloc, lines, month)?;
    let requested = total(&own_lines(alloc, &lines, month)?);
    let adjustments = total(&adjusting_lines(alloc, &lines, month)?);
    let total = total(&lines);
    Ok(Voucher {
        month,
        lines: Listed::new(lines),
        requested,
        adjustments,
        total,
    })
}

/// The lines of the closing of the month.
#[tactic(auto, using(list_laws::proofs::Filters::filter_few))]
fn lines_of_closing(alloc: Global, lines: &BookLines, month: Month) -> Result<Vec<Line>, NoMemory>
    ensures lines { IfOk result (λ closing. closing.items ≡ lines_of_closing month lines.now) }
    ensures few { IfOk result (λ closing. length closing.items ≤ length lines.now) }
{
    let closing = closing_in_turn(lines.lines, month).to_vec(alloc)?;
    Ok(closing)
}

/// Those of a closing's lines that are for its own month.
fn own_lines(alloc: Global, lines: &[Line], month: Month) -> Result<Vec<Line>, NoMemory>
    ensures lines { IfOk result (λ own. own.items ≡ filter (λ line. line.for_month == month) lines.now) }
    ensures few { IfOk result (λ own. length own.items ≤ length lines.now) }
{
    let own = lines
        .iter()
        .filter(|line| line.for_month == month)
        .copied()
        .collect(alloc)?;
    Ok(own)
}

/// Those that change earlier months.
fn adjusting_lines(alloc: Global, lines: &[Line], month: Month) -> Result<Vec<Line>, NoMemory>
    ensures lines { IfOk result (λ adjusting. adjusting.items ≡ filter (λ line. not (line.for_month == month)) lines.now) }
    ensures few { IfOk result (λ adjusting. length adjusting.items ≤ length lines.now) }
{
    let adjusting = lines
        .iter()
        .filter(|line| line.for_month != month)
        .copied()
        .collect(alloc)?;
    Ok(adjusting)
}

pub fn paid_answer(
    alloc: Global,
    register: &Register,
    lines: &BookLines,
    household: u32,
    month: Month,
) -> Result<Answer, Asked>
    requires { length lines.now ≤ most_lines }
    ensures { Answers (paid_answer register.now.known lines.now household month) result }
{
    if let Some(refusal) = no_household(register.households(), household) {
        return Err(Asked::Refused(refusal));
    }
    let paying = paying_lines(alloc, lines, household, month)?;
    Ok(Answer::Paid(total(&paying)))
}

/// The lines that pay the household for the month.
#[tactic(auto, using(list_laws::proofs::Filters::filter_few))]
fn paying_lines(
    alloc: Global,
    lines: &BookLines,
    household: u32,
    month: Month,
) -> Result<Vec<Line>, NoMemory>
    ensures lines { IfOk result (λ paying. paying.items ≡ filter (is_for household month) lines.now) }
    ensures few { IfOk result (λ paying. length paying.items ≤ length lines.now) }
{
    paying_in_turn(alloc, lines.lines, household, month)
}
