//! Types that are read of values.

ghost use Rattle.std.specs.Prelude.{List, ℕ, Result};
ghost use Rattle.serde_json.specs.View.{view};
ghost use Rattle.json_form.specs.Gives.{Gives};
ghost use Rattle.json_form.specs.Form.{bool_at, u32_at, text_at, day_at, month_at};

use crate::fault::FormFault;
use crate::value::{boolean, number, text};
use days_core::{Day, Month, day_of_text, month_of_text};
use plain_data::Text;
use serde_json::Value;
use std::alloc::Global;

/// A type that is read of a JSON value.
pub trait Formed: Sized + Drop {
    ghost use Rattle.serde_json.specs.Data.{Data};

    /// What a value is read as, or the path of the first place that doesn't fit.
    ghost form: { Data → Result Self (List ℕ) };

    fn of_value(alloc: Global, value: &Value) -> Result<Self, FormFault>
        ensures { Gives (λ x. x) result (form (view value.now)) };
}

impl Formed for bool {
    ghost form = { bool_at };

    fn of_value(alloc: Global, value: &Value) -> Result<bool, FormFault> {
        boolean(alloc, value)
    }
}

impl Formed for u32 {
    ghost form = { u32_at };

    #[tactic(auto, unfolding(crate::specs::Form::u32_at))]
    fn of_value(alloc: Global, value: &Value) -> Result<u32, FormFault> {
        number(alloc, value, 0, u32::MAX)
    }
}

impl Formed for Text {
    ghost form = { text_at };

    fn of_value(alloc: Global, value: &Value) -> Result<Text, FormFault> {
        let bytes = text(alloc, value)?.as_bytes().to_vec(alloc)?;
        Ok(Text::new(bytes))
    }
}

impl Formed for Day {
    ghost form = { day_at };

    #[tactic(auto, unfolding(crate::specs::Form::text_at, crate::specs::Form::day_at))]
    fn of_value(alloc: Global, value: &Value) -> Result<Day, FormFault> {
        match day_of_text(text(alloc, value)?) {
            Ok(day) => Ok(day),
            Err(_) => Err(FormFault::here(alloc)),
        }
    }
}

impl Formed for Month {
    ghost form = { month_at };

    #[tactic(auto, unfolding(crate::specs::Form::text_at, crate::specs::Form::month_at))]
    fn of_value(alloc: Global, value: &Value) -> Result<Month, FormFault> {
        match month_of_text(text(alloc, value)?) {
            Ok(month) => Ok(month),
            Err(_) => Err(FormFault::here(alloc)),
        }
    }
}
