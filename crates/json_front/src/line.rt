//! A line of a batch: a call or a question.

ghost use Rattle.std.specs.Prelude.{◌≡◌, true, IfOk};
ghost use Rattle.serde_json.specs.View.{view};
ghost use Rattle.json_form.specs.Gives.{Gives};
ghost use Rattle.json_front.specs.Lines.{act_at, ask_at, line_at, line_from, is_fit_line};

use crate::asking::Ask;
use crate::calling::call_fields;
use days_core::Day;
use json_form::{FormFault, closed, field_by, object, optional_field, value_of_bytes};
use office_step::Call;
use questions::Question;
use serde_json::Value;
use std::alloc::Global;

/// A line of a batch.
#[derive(Drop)]
pub enum BatchLine {
    /// A call, and the day on which it is made, if the line tells it.
    Act { today: Option<Day>, call: Call },
    Ask(Question),
}

/// Reads a line of a batch, without its line end. `BadField` has the path of the first place that doesn't fit, the empty
/// one where the line is no JSON.
pub fn line_of_bytes(alloc: Global, bytes: &[u8]) -> Result<BatchLine, FormFault>
    ensures exact { Gives (λ line. line) result (line_from bytes.now) }
    ensures fit { IfOk result (λ line. is_fit_line line ≡ true) }
{
    let value = value_of_bytes(alloc, bytes)?;
    line_of(alloc, &value)
}

fn line_of(alloc: Global, value: &Value) -> Result<BatchLine, FormFault>
    ensures exact { Gives (λ line. line) result (line_at (view value.now)) }
    ensures fit { IfOk result (λ line. is_fit_line line ≡ true) }
{
    object(alloc, value)?;
    if value.get("ask").is_some() {
        ask_of(alloc, value)
    } else {
        act_of(alloc, value)
    }
}

#[tactic(auto, unfolding(crate::specs::Lines::ask_at))]
fn ask_of(alloc: Global, value: &Value) -> Result<BatchLine, FormFault>
    ensures exact { Gives (λ line. line) result (ask_at (view value.now)) }
    ensures fit { IfOk result (λ line. is_fit_line line ≡ true) }
{
    let asked = field_by(alloc, value, "ask", &Ask)?;
    closed(alloc, value, &["ask"], BatchLine::Ask(asked))
}

#[tactic(auto, unfolding(crate::specs::Lines::act_at))]
fn act_of(alloc: Global, value: &Value) -> Result<BatchLine, FormFault>
    ensures exact { Gives (λ line. line) result (act_at (view value.now)) }
    ensures fit { IfOk result (λ line. is_fit_line line ≡ true) }
{
    let today = optional_field(alloc, value, "today")?;
    let call = call_fields(alloc, value)?;
    let names = ["today", "clerk", "request", "act"];
    closed(alloc, value, &names, BatchLine::Act { today, call })
}
