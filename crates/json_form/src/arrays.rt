//! Arrays, read item by item.

ghost use Rattle.std.specs.Prelude.{◌≡◌, true, length, IfOk, string_bytes};
ghost use Rattle.std.specs.List.{list_all};
ghost use Rattle.serde_json.specs.View.{view, items_view};
ghost use Rattle.json_form.specs.Gives.{Gives};
ghost use Rattle.json_form.specs.Form.{under, items_from, array_at};
ghost use Rattle.json_form.specs.Path.{position};

use crate::fault::FormFault;
use crate::formed::Formed;
use crate::forms::Form;
use plain_data::Listed;
use serde_json::Value;
use std::alloc::{AllocError, Global};
use std::marker::PhantomData;

/// An array of any length.
impl<T: Formed> Formed for Listed<T> {
    ghost form = { array_at T.form };

    #[tactic(auto, unfolding(crate::specs::Form::array_at))]
    fn of_value(alloc: Global, value: &Value) -> Result<Listed<T>, FormFault> {
        match value.as_array() {
            Some(items) => Ok(Listed::new(rows_of(alloc, items, &PhantomData::<T>)?)),
            None => Err(FormFault::here(alloc)),
        }
    }
}

/// Reads the items of an array.
pub fn rows_of<F: Form>(alloc: Global, items: &[Value], each: &F) -> Result<Vec<F::Read>, FormFault>
    ensures exact { Gives (λ rows. rows.items) result (items_from (F.form each.now) 0 (items_view items.now)) }
    ensures of_length { IfOk result (λ rows. length rows.items ≡ length items.now) }
    ensures fit { IfOk result (λ rows. list_all (F.passes each.now) rows.items ≡ true) }
{
    let mut rows = Vec::new(alloc);
    for (index, item) in items.iter().enumerate() {
        rows.push(row_of(alloc, item, index, each)?)?;
    }
    Ok(rows)
}

fn row_of<F: Form>(
    alloc: Global,
    item: &Value,
    index: usize,
    each: &F,
) -> Result<F::Read, FormFault>
    ensures exact { Gives (λ row. row) result (under (position index) (F.form each.now (view item.now))) }
    ensures fit { IfOk result (λ row. F.passes each.now row ≡ true) }
{
    match each.read(alloc, item) {
        Ok(row) => Ok(row),
        Err(fault) => Err(fault.under(alloc, position_of(alloc, index)?.as_str())),
    }
}

fn position_of(alloc: Global, index: usize) -> Result<String, AllocError>
    ensures { IfOk result (λ text. string_bytes text ≡ position index) }
{
    format!(in alloc; "[{index}]")
}
