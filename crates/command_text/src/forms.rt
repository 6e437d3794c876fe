//! The forms of commands' fields that no type says alone.

ghost use Rattle.std.specs.Prelude.{◌≡◌, true, IfOk};
ghost use Rattle.json_form.specs.Gives.{Gives};
ghost use Rattle.book_rows.specs.Fit.{is_name, is_within, is_bound};
ghost use Rattle.command_forms.specs.Fields.{name_at, month_within, bound_of, bound_at};

use book_rows::is_name;
use days_core::Month;
use json_form::{ArrayOf, Form, FormFault, Formed, Within, text};
use plain_data::Text;
use rent_table::Bound;
use serde_json::Value;
use std::alloc::Global;

/// A name of at most so many bytes.
#[derive(Drop)]
pub struct Name {
    pub most: usize,
}

impl Form for Name {
    type Read = Text;

    ghost form = { λ name. name_at name.most };

    ghost passes = { λ name text. is_name name.most text };

    #[tactic(auto, unfolding(command_forms::specs::Fields::name_at))]
    fn read(&self, alloc: Global, value: &Value) -> Result<Text, FormFault> {
        let name = text(alloc, value)?.as_bytes();
        if is_name(name, self.most) {
            Ok(Text::new(name.to_vec(alloc)?))
        } else {
            Err(FormFault::here(alloc))
        }
    }
}

/// A month from the one of that number to the other.
#[derive(Drop)]
pub struct MonthWithin {
    pub least: u32,
    pub most: u32,
}

impl Form for MonthWithin {
    type Read = Month;

    ghost form = { λ range. month_within range.least range.most };

    ghost passes = { λ range. is_within range.least range.most };

    #[tactic(auto, unfolding(command_forms::specs::Fields::month_within))]
    fn read(&self, alloc: Global, value: &Value) -> Result<Month, FormFault> {
        let month = Month::of_value(alloc, value)?;
        if self.least <= month.number() && month.number() <= self.most {
            Ok(month)
        } else {
            Err(FormFault::here(alloc))
        }
    }
}

/// How many persons a unit is for.
#[derive(Drop)]
pub struct Persons;

impl Form for Persons {
    type Read = Bound;

    ghost form = { λ _. bound_at };

    ghost passes = { λ _. is_bound };

    #[tactic(auto, unfolding(command_forms::specs::Fields::bound_at))]
    fn read(&self, alloc: Global, value: &Value) -> Result<Bound, FormFault> {
        let pair = ArrayOf::<_, 2> {
            each: Within { least: 1, most: 16 },
        };
        let [least, most] = pair.read(alloc, value)?;
        bound_of(alloc, least, most)
    }
}

fn bound_of(alloc: Global, least: u32, most: u32) -> Result<Bound, FormFault>
    requires least { is_within 1 16 least ≡ true }
    requires most { is_within 1 16 most ≡ true }
    ensures exact { Gives (λ bound. bound) result (bound_of least most) }
    ensures fit { IfOk result (λ bound. is_bound bound ≡ true) }
{
    if least <= most {
        Ok(Bound { least, most })
    } else {
        Err(FormFault::here(alloc).under(alloc, "[1]"))
    }
}
