//! Types that are written as values.

ghost use Rattle.std.specs.Prelude.{◌≡◌, false, map, IfOk, string_bytes};
ghost use Rattle.serde_json.specs.View.{view, items_view};
ghost use Rattle.serde_json.specs.Data.{boolean, string};
ghost use Rattle.serde_json.specs.Written.{items_have_float};
ghost use Rattle.days_core.specs.DayText.{day_text, month_text};
ghost use Rattle.json_form.specs.Written.{number_data, amount_data, text_data, day_data, month_data, or_null, array_data};

use crate::exact::Exact;
use days_core::{Day, Month, text_of_day, text_of_month};
use plain_data::{Listed, NoMemory, Text};
use serde_json::Value;
use std::alloc::Global;
use std::marker::PhantomData;

/// A type that is written as a JSON value.
pub trait Written: Sized {
    ghost use Rattle.serde_json.specs.Data.{Data};

    /// The value that is written.
    ghost written: { Self → Data };

    fn to_value(&self, alloc: Global) -> Result<Exact, NoMemory>
        ensures { IfOk result (λ exact. view exact.value ≡ written self.now) };
}

impl Written for bool {
    ghost written = { boolean };

    fn to_value(&self, _alloc: Global) -> Result<Exact, NoMemory> {
        Ok(Exact {
            value: Value::Bool(*self),
        })
    }
}

impl Written for u32 {
    ghost written = { number_data };

    #[tactic(auto, unfolding(crate::specs::Written::number_data))]
    fn to_value(&self, _alloc: Global) -> Result<Exact, NoMemory> {
        Ok(Exact {
            value: Value::from(*self),
        })
    }
}

/// Whole dollars, which may be below 0.
impl Written for i64 {
    ghost written = { amount_data };

    #[tactic(auto, unfolding(crate::specs::Written::amount_data))]
    fn to_value(&self, _alloc: Global) -> Result<Exact, NoMemory> {
        Ok(Exact {
            value: Value::from(*self),
        })
    }
}

/// A text.
impl Written for &str {
    ghost written = { λ text. string text.now };

    fn to_value(&self, alloc: Global) -> Result<Exact, NoMemory> {
        Ok(Exact {
            value: Value::try_from_str(alloc, *self)?,
        })
    }
}

/// The text that the bytes are; bytes that are none, as null.
impl Written for Text {
    ghost written = { text_data };

    fn to_value(&self, alloc: Global) -> Result<Exact, NoMemory> {
        match str::from_utf8(self.as_bytes()) {
            Ok(text) => text.to_value(alloc),
            Err(_) => Ok(Exact::null()),
        }
    }
}

/// The text of the day.
impl Written for Day {
    ghost written = { day_data };

    #[tactic(auto, unfolding(crate::specs::Written::day_data))]
    fn to_value(&self, alloc: Global) -> Result<Exact, NoMemory> {
        Ok(Exact {
            value: Value::String(day_string(alloc, *self)?),
        })
    }
}

fn day_string(alloc: Global, day: Day) -> Result<String, NoMemory>
    ensures { IfOk result (λ text. string_bytes text ≡ day_text day) }
{
    let text = text_of_day(alloc, day)?;
    Ok(String::from_utf8(text.into_bytes()).unwrap())
}

/// The text of the month.
impl Written for Month {
    ghost written = { month_data };

    #[tactic(auto, unfolding(crate::specs::Written::month_data))]
    fn to_value(&self, alloc: Global) -> Result<Exact, NoMemory> {
        Ok(Exact {
            value: Value::String(month_string(alloc, *self)?),
        })
    }
}

fn month_string(alloc: Global, month: Month) -> Result<String, NoMemory>
    ensures { IfOk result (λ text. string_bytes text ≡ month_text month) }
{
    let text = text_of_month(alloc, month)?;
    Ok(String::from_utf8(text.into_bytes()).unwrap())
}

/// Null where there is none.
impl<T: Written> Written for Option<T> {
    ghost written = { or_null T.written };

    fn to_value(&self, alloc: Global) -> Result<Exact, NoMemory> {
        match self {
            Some(x) => x.to_value(alloc),
            None => Ok(Exact::null()),
        }
    }
}

/// An array.
impl<T: Written> Written for Listed<T> {
    ghost written = { array_data T.written };

    fn to_value(&self, alloc: Global) -> Result<Exact, NoMemory> {
        array_by(alloc, self.as_slice(), &PhantomData::<T>)
    }
}

impl<T: Written, const N: usize> Written for [T; N] {
    ghost written = { array_data T.written };

    fn to_value(&self, alloc: Global) -> Result<Exact, NoMemory> {
        array_by(alloc, self, &PhantomData::<T>)
    }
}

/// How the rows of an array are written.
pub trait Writer {
    type Row;

    ghost use Rattle.serde_json.specs.Data.{Data};

    /// The value that is written of a row.
    ghost written: { Self → Self.Row → Data };

    fn write(&self, alloc: Global, row: &Self::Row) -> Result<Exact, NoMemory>
        ensures { IfOk result (λ exact. view exact.value ≡ written self.now row.now) };
}

/// As their type is.
impl<T: Written> Writer for PhantomData<T> {
    type Row = T;

    ghost written = { λ _. T.written };

    fn write(&self, alloc: Global, row: &T) -> Result<Exact, NoMemory> {
        row.to_value(alloc)
    }
}

/// Writes an array of rows.
#[tactic(auto, unfolding(crate::specs::Written::array_data))]
pub fn array_by<W: Writer>(alloc: Global, rows: &[W::Row], writer: &W) -> Result<Exact, NoMemory>
    ensures { IfOk result (λ exact. view exact.value ≡ array_data (W.written writer.now) rows.now) }
{
    Ok(Exact {
        value: Value::Array(values_of(alloc, rows, writer)?),
    })
}

fn values_of<W: Writer>(alloc: Global, rows: &[W::Row], writer: &W) -> Result<Vec<Value>, NoMemory>
    ensures values { IfOk result (λ values. map view values.items ≡ map (W.written writer.now) rows.now) }
    ensures no_float { IfOk result (λ values. items_have_float (items_view values.items) ≡ false) }
{
    let mut values = Vec::new(alloc);
    for row in rows {
        values.push(writer.write(alloc, row)?.into_value())?;
    }
    Ok(values)
}
