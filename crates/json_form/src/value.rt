//! Plain values: flags, texts, numbers and words.

ghost use Rattle.std.specs.Prelude.{◌≡◌, ◌≤◌, map, IfOk};
ghost use Rattle.json_form.specs.Gives.{Gives};
ghost use Rattle.json_form.specs.Form.{bool_at, text_at, number_at};
ghost use Rattle.json_form.specs.Form as form;
ghost use Rattle.serde_json.specs.View.{view};

use crate::fault::FormFault;
use serde_json::Value;
use std::alloc::Global;

/// Reads true or false.
#[tactic(auto, unfolding(crate::specs::Form::bool_at))]
pub fn boolean(alloc: Global, value: &Value) -> Result<bool, FormFault>
    ensures { Gives (λ flag. flag) result (bool_at (view value.now)) }
{
    value.as_bool().ok_or(FormFault::here(alloc))
}

/// Reads a text.
#[tactic(auto, unfolding(crate::specs::Form::text_at))]
pub fn text<'v>(alloc: Global, value: &'v Value) -> Result<&'v str, FormFault>
    ensures { Gives (λ text. text.now) result (text_at (view value.now)) }
{
    value.as_str().ok_or(FormFault::here(alloc))
}

/// Reads a whole number from `least` to `most`, written without fraction or exponent.
#[tactic(auto, unfolding(crate::specs::Form::number_at))]
pub fn number(alloc: Global, value: &Value, least: u32, most: u32) -> Result<u32, FormFault>
    ensures exact { Gives (λ number. number) result (number_at least most (view value.now)) }
    ensures in_range { IfOk result (λ number. (least ≤ number) × (number ≤ most)) }
{
    match value.as_u64() {
        Some(number) if u64::from(least) <= number && number <= u64::from(most) => {
            Ok(number as u32)
        }
        _ => Err(FormFault::here(alloc)),
    }
}

/// Reads one of some words, for what it says.
#[tactic(auto, unfolding(crate::specs::Form::one_of))]
pub fn one_of<T: Copy>(alloc: Global, value: &Value, choices: &[(&str, T)]) -> Result<T, FormFault>
    ensures { Gives (λ choice. choice) result (form.one_of (map (λ choice. (choice.0.now, choice.1)) choices.now) (view value.now)) }
{
    match value.as_str() {
        Some(text) => match chosen(choices, text) {
            Some(choice) => Ok(choice),
            None => Err(FormFault::here(alloc)),
        },
        None => Err(FormFault::here(alloc)),
    }
}

fn chosen<T: Copy>(choices: &[(&str, T)], text: &str) -> Option<T>
    ensures { result ≡ form.chosen (map (λ choice. (choice.0.now, choice.1)) choices.now) text.now }
{
    for (word, choice) in choices {
        if text == *word {
            return Some(*choice);
        }
    }
    None
}
