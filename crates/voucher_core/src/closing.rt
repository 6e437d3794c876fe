//! The lines of a closing.

ghost use Rattle.std.specs.Prelude.{◌≡◌, ◌≤◌, ◌<◌, ◌^◌, length, IfOk};
ghost use Rattle.days_core.specs.OfficeDays.{first_office_month, last_office_month};
ghost use Rattle.record_history.specs.Held.{records_of};
ghost use Rattle.voucher_core.specs.Lines.{closing_lines, placed};
ghost use Rattle.record_history.specs.Limits.{most_acts};

use crate::Line;
use crate::lines::{add_adjustments, add_month, number_lines};
use days_core::Month;
use plain_data::NoMemory;
use record_history::History;
use std::alloc::Global;

/// How a month is closed.
#[derive(Clone, Copy)]
pub struct Closing {
    /// The month that is closed.
    pub closed: Month,
    /// The first month of the plan.
    pub first_month: Month,
    /// The act of the last closing, and 0 where there was none.
    pub last_close: u32,
    /// The act that closes the month.
    pub act: u32,
}

/// The lines of a closing, in the order of their months, households and first days.
///
/// Only months from 2000-01 to 2099-12 are closed, for at most 100,000 households.
pub fn close_lines(
    alloc: Global,
    history: &History,
    closing: &Closing,
) -> Result<Vec<Line>, NoMemory>
    requires last_close { closing.now.last_close ≤ closing.now.act }
    requires households { length history.now.households ≤ most_acts }
    requires first_month { first_office_month ≤ closing.now.first_month }
    requires month { closing.now.closed ≤ last_office_month }
    ensures lines { IfOk result (λ lines. lines.items ≡ placed 1 (closing_lines (records_of history.now.households) (length history.now.households) closing.now)) }
    ensures few { IfOk result (λ lines. length lines.items < 2 ^ 32) }
{
    let mut lines = gathered(alloc, history, closing)?;
    number_lines(&mut lines);
    Ok(lines)
}

/// The lines without their places.
fn gathered(alloc: Global, history: &History, closing: &Closing) -> Result<Vec<Line>, NoMemory>
    requires last_close { closing.now.last_close ≤ closing.now.act }
    requires households { length history.now.households ≤ most_acts }
    ensures { IfOk result (λ lines. lines.items ≡ closing_lines (records_of history.now.households) (length history.now.households) closing.now) }
{
    let mut lines = Vec::new(alloc);
    add_adjustments(alloc, &mut lines, history, closing)?;
    add_month(alloc, &mut lines, history, closing)?;
    Ok(lines)
}
