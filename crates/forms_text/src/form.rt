//! The form as a whole.

ghost use Rattle.std.specs.Prelude.{◌≡◌, ◌++◌, IfOk, OnOk};
ghost use Rattle.office_core.specs.Below.office_step.Known.{known_of};
ghost use Rattle.forms_text.specs.Form.{form_text, heading};

use crate::households::count_households;
use crate::schedules::{push_adjusting_schedule, push_own_schedule};
use days_core::text_of_month;
use office_core::{Office, Voucher};
use plain_data::{NoMemory, Text};
use std::alloc::Global;
use text_columns::{amount_text, number_text, push, push_labelled};

/// The form of what a closing requested.
#[tactic(auto, unfolding(crate::specs::Form::form_text))]
pub fn form_text(alloc: Global, office: &Office, voucher: &Voucher) -> Result<Text, NoMemory>
    ensures { IfOk result (λ text. text ≡ form_text (known_of office.now.book) voucher.now) }
{
    let mut text = Vec::new(alloc);
    push_heading(alloc, &mut text, voucher)?;
    push(&mut text, b"\n")?;
    push_own_schedule(alloc, &mut text, office, voucher)?;
    push(&mut text, b"\n")?;
    push_adjusting_schedule(alloc, &mut text, voucher)?;
    Ok(Text::new(text))
}

fn push_heading(alloc: Global, text: &mut Vec<u8>, voucher: &Voucher) -> Result<(), NoMemory>
    ensures { OnOk result (text.new.items ≡ text.old.items ++ heading voucher.now) }
{
    let month = text_of_month(alloc, voucher.month)?;
    let households = number_text(alloc, count_households(alloc, voucher)?)?;
    let requested = amount_text(alloc, voucher.requested)?;
    let adjustments = amount_text(alloc, voucher.adjustments)?;
    let total = amount_text(alloc, voucher.total)?;
    push(text, b"FORM HUD-52670 (office layout)\n")?;
    push_labelled(text, b"Month: ", month.as_bytes())?;
    push_labelled(text, b"Households: ", households.as_bytes())?;
    push_labelled(text, b"Requested: ", requested.as_bytes())?;
    push_labelled(text, b"Adjustments: ", adjustments.as_bytes())?;
    push_labelled(text, b"Total: ", total.as_bytes())
}
