//! How many acts and lines a book has, and what the lines amount to.

ghost use Rattle.std.specs.Prelude.{◌≡◌, ◌≤◌, ◌++◌, ◌+ℤ◌, IfOk, OnOk, length, decimal};
ghost use Rattle.std.specs.Fmt.{signed_decimal};
ghost use Rattle.text_columns.specs.Columns.{labelled};
ghost use Rattle.voucher_core.specs.Lines.{total};
ghost use Rattle.book_rows.specs.Book.{book_of};
ghost use Rattle.simulation.specs.Trial.{adjusting_lines, own_lines, summary};
ghost use Rattle.record_history.specs.Limits.{most_lines};

use book_rows::Tables;
use plain_data::{NoMemory, Text};
use std::alloc::Global;
use text_columns::{amount_text, number_text, push_labelled};
use voucher_core::{Line, total};

/// The five lines of the summary. Amounts are whole dollars.
#[tactic(auto, unfolding(crate::specs::Trial::summary))]
pub fn summary(alloc: Global, tables: &Tables) -> Result<Text, NoMemory>
    requires { length tables.now.lines.items ≤ most_lines }
    ensures { IfOk result (λ text. text ≡ summary (book_of tables.now)) }
{
    let requested = total(&own_lines(alloc, &tables.lines)?);
    let adjustments = total(&adjusting_lines(alloc, &tables.lines)?);
    let mut text = Vec::new(alloc);
    push_number(alloc, &mut text, b"acts ", tables.acts.len() as u64)?;
    push_number(alloc, &mut text, b"lines ", tables.lines.len() as u64)?;
    push_amount(alloc, &mut text, b"requested ", requested)?;
    push_amount(alloc, &mut text, b"adjustments ", adjustments)?;
    push_amount(alloc, &mut text, b"total ", total_of_both(&tables.lines))?;
    Ok(Text::new(text))
}

/// The lines that are for the month of their closing.
fn own_lines(alloc: Global, lines: &[Line]) -> Result<Vec<Line>, NoMemory>
    ensures lines { IfOk result (λ own. own.items ≡ own_lines lines.now) }
    ensures few { IfOk result (λ own. length own.items ≤ length lines.now) }
{
    let own = lines
        .iter()
        .filter(|line| line.for_month == line.month)
        .copied()
        .collect(alloc)?;
    Ok(own)
}

/// Those that change earlier months.
fn adjusting_lines(alloc: Global, lines: &[Line]) -> Result<Vec<Line>, NoMemory>
    ensures lines { IfOk result (λ adjusting. adjusting.items ≡ adjusting_lines lines.now) }
    ensures few { IfOk result (λ adjusting. length adjusting.items ≤ length lines.now) }
{
    let adjusting = lines
        .iter()
        .filter(|line| line.for_month != line.month)
        .copied()
        .collect(alloc)?;
    Ok(adjusting)
}

/// What these and those amount to together.
fn total_of_both(lines: &[Line]) -> i64
    requires { length lines.now ≤ most_lines }
    ensures { result ≡ total (own_lines lines.now) +ℤ total (adjusting_lines lines.now) }
{
    total(lines)
}

fn push_number(alloc: Global, text: &mut Vec<u8>, label: &[u8], number: u64) -> Result<(), NoMemory>
    ensures { OnOk result (text.new.items ≡ text.old.items ++ labelled label.now (decimal number)) }
{
    let value = number_text(alloc, number)?;
    push_labelled(text, label, value.as_bytes())
}

fn push_amount(alloc: Global, text: &mut Vec<u8>, label: &[u8], amount: i64) -> Result<(), NoMemory>
    ensures { OnOk result (text.new.items ≡ text.old.items ++ labelled label.now (signed_decimal amount)) }
{
    let value = amount_text(alloc, amount)?;
    push_labelled(text, label, value.as_bytes())
}
