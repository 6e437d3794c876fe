//! A closing's request for payment, in JSON.

ghost use Rattle.std.specs.Prelude.{◌≡◌, Some, IfOk};
ghost use Rattle.serde_json.specs.View.{view};
ghost use Rattle.reply_text.specs.Answers.{line_data, voucher_data};

use json_form::{Exact, Members, Writer, array_by};
use office_answers::Voucher;
use plain_data::NoMemory;
use std::alloc::Global;
use voucher_core::Line;

/// What a closing requested, or that the month isn't closed.
pub fn voucher_value(alloc: Global, voucher: &Option<Voucher>) -> Result<Exact, NoMemory>
    ensures { IfOk result (λ exact. view exact.value ≡ voucher_data voucher.now) }
{
    match voucher {
        Some(voucher) => closed_value(alloc, voucher),
        None => Ok(
            Members::new(alloc)
                .with_value("voucher", Exact::null())?
                .done(),
        ),
    }
}

fn closed_value(alloc: Global, voucher: &Voucher) -> Result<Exact, NoMemory>
    ensures { IfOk result (λ exact. view exact.value ≡ voucher_data (Some voucher.now)) }
{
    let lines = array_by(alloc, voucher.lines.as_slice(), &Lines)?;
    let members = Members::new(alloc)
        .with_value("lines", lines)?
        .with("adjustments", &voucher.adjustments)?
        .with("month", &voucher.month)?
        .with("requested", &voucher.requested)?
        .with("total", &voucher.total)?;
    Ok(members.done())
}

#[derive(Drop)]
struct Lines;

impl Writer for Lines {
    type Row = Line;

    ghost written = { λ _. line_data };

    fn write(&self, alloc: Global, line: &Line) -> Result<Exact, NoMemory> {
        let members = Members::new(alloc)
            .with("amount", &i64::from(line.amount))?
            .with("first", &line.first)?
            .with("for_month", &line.for_month)?
            .with("household", &line.household)?
            .with("last", &line.last)?
            .with("new", &line.new)?
            .with("old", &line.old)?;
        Ok(members.done())
    }
}
