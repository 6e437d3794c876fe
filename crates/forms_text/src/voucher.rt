//! The answer to `voucher`, with or without a form.

ghost use Rattle.std.specs.Prelude.{◌≡◌, IfOk};
ghost use Rattle.forms_text.specs.Form.{not_closed, voucher_text};

use crate::form::form_text;
use days_core::{Month, text_of_month};
use office_core::{Answer, Asked, Office, Question};
use plain_data::{NoMemory, Text};
use std::alloc::Global;
use text_columns::push;

/// The application for a month that is closed, as it is printed, or that the month isn't closed.
pub fn voucher_text(alloc: Global, office: &Office, month: Month) -> Result<Text, NoMemory>
    ensures { IfOk result (λ text. text ≡ voucher_text office.now.book month) }
{
    let told = office.ask(alloc, &Question::Voucher { month });
    match &told {
        Ok(Answer::Voucher(Some(voucher))) => form_text(alloc, office, voucher),
        Ok(Answer::Voucher(None)) => not_closed(alloc, month),
        Err(Asked::NoMemory) => Err(NoMemory),
        _ => unreachable!(),
    }
}

fn not_closed(alloc: Global, month: Month) -> Result<Text, NoMemory>
    ensures { IfOk result (λ text. text ≡ not_closed month) }
{
    let month = text_of_month(alloc, month)?;
    let mut text = Vec::new(alloc);
    push(&mut text, b"month ")?;
    push(&mut text, month.as_bytes())?;
    push(&mut text, b" is not closed\n")?;
    Ok(Text::new(text))
}
