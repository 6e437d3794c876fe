//! Fields of an object, read by name.

ghost use Rattle.std.specs.Prelude.{◌≡◌, ◌≤◌, true, map, not, bytes_eq, IfOk, string_bytes};
ghost use Rattle.std.specs.List.{list_any};
ghost use Rattle.std.specs.BTreeMap.{keys};
ghost use Rattle.serde_json.specs.View.{view};
ghost use Rattle.json_form.specs.Gives.{Gives};
ghost use Rattle.json_form.specs.Form as form;

use crate::fault::FormFault;
use crate::formed::Formed;
use crate::forms::Form;
use crate::value::number;
use serde_json::{Map, Value};
use std::alloc::Global;
use std::marker::PhantomData;

/// Reads that the value is an object, whatever its members.
#[tactic(auto, unfolding(crate::specs::Form::is_object_at))]
pub fn object(alloc: Global, value: &Value) -> Result<(), FormFault>
    ensures { Gives (λ _. tt) result (form.is_object_at (view value.now)) }
{
    if value.is_object() {
        Ok(())
    } else {
        Err(FormFault::here(alloc))
    }
}

/// Reads the field of that name.
pub fn field<T: Formed>(alloc: Global, value: &Value, name: &str) -> Result<T, FormFault>
    ensures { Gives (λ x. x) result (form.field name.now T.form (view value.now)) }
{
    field_by(alloc, value, name, &PhantomData::<T>)
}

/// Reads the field of that name, by a form.
#[tactic(auto, unfolding(crate::specs::Form::field))]
pub fn field_by<F: Form>(
    alloc: Global,
    value: &Value,
    name: &str,
    by: &F,
) -> Result<F::Read, FormFault>
    ensures exact { Gives (λ x. x) result (form.field name.now (F.form by.now) (view value.now)) }
    ensures fit { IfOk result (λ x. F.passes by.now x ≡ true) }
{
    match value.get(name) {
        Some(found) => match by.read(alloc, found) {
            Ok(x) => Ok(x),
            Err(fault) => Err(fault.under(alloc, name)),
        },
        None => Err(FormFault::here(alloc).under(alloc, name)),
    }
}

/// Reads the field of that name, which may be missing.
#[tactic(auto, unfolding(crate::specs::Form::optional_field))]
pub fn optional_field<T: Formed>(
    alloc: Global,
    value: &Value,
    name: &str,
) -> Result<Option<T>, FormFault>
    ensures { Gives (λ x. x) result (form.optional_field name.now T.form (view value.now)) }
{
    match value.get(name) {
        Some(found) => match T::of_value(alloc, found) {
            Ok(x) => Ok(Some(x)),
            Err(fault) => Err(fault.under(alloc, name)),
        },
        None => Ok(None),
    }
}

/// Reads the field of that name, which is a number from `least` to `most`.
#[tactic(auto, unfolding(crate::specs::Form::field))]
pub fn number_field(
    alloc: Global,
    value: &Value,
    name: &str,
    least: u32,
    most: u32,
) -> Result<u32, FormFault>
    ensures exact { Gives (λ number. number) result
        (form.field name.now (form.number_at least most) (view value.now)) }
    ensures in_range { IfOk result (λ number. (least ≤ number) × (number ≤ most)) }
{
    match value.get(name) {
        Some(found) => match number(alloc, found, least, most) {
            Ok(number) => Ok(number),
            Err(fault) => Err(fault.under(alloc, name)),
        },
        None => Err(FormFault::here(alloc).under(alloc, name)),
    }
}

/// Reads that the value is an object with no members but those of these names.
#[tactic(auto, unfolding(crate::specs::Form::only))]
pub fn only(alloc: Global, value: &Value, names: &[&str]) -> Result<(), FormFault>
    ensures { Gives (λ _. tt) result (form.only (map (λ name. name.now) names.now) (view value.now)) }
{
    match value.as_object() {
        Some(members) if !has_other(members, names) => Ok(()),
        Some(_) => Err(FormFault::here(alloc).under(alloc, "?")),
        None => Err(FormFault::here(alloc)),
    }
}

/// What was read of an object, where that has no members but those of these names.
pub fn closed<T: Drop>(
    alloc: Global,
    value: &Value,
    names: &[&str],
    read: T,
) -> Result<T, FormFault>
    ensures exact { Gives (λ x. x) result (form.closed (map (λ name. name.now) names.now) read (view value.now)) }
    ensures kept { IfOk result (λ x. x ≡ read) }
{
    match only(alloc, value, names) {
        Ok(()) => Ok(read),
        Err(fault) => Err(fault),
    }
}

fn has_other(members: &Map<String, Value>, names: &[&str]) -> bool
    ensures { result ≡ list_any
        (λ name. not (list_any (λ listed. bytes_eq (string_bytes name) listed.now) names.now))
        (keys members.now) }
{
    members.keys().any(|name| !is_listed(names, name.as_str()))
}

fn is_listed(names: &[&str], name: &str) -> bool
    ensures { result ≡ list_any (λ listed. bytes_eq name.now listed.now) names.now }
{
    names.iter().any(|listed| name == *listed)
}
