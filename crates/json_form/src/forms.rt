//! Forms that no type says alone.

ghost use Rattle.std.specs.Prelude.{◌≡◌, ◌&&◌, ◌==◌, nat_le, true, length, IfOk};
ghost use Rattle.std.specs.List.{list_all};
ghost use Rattle.serde_json.specs.View.{view};
ghost use Rattle.json_form.specs.Gives.{Gives};
ghost use Rattle.json_form.specs.Form as form;

use crate::arrays::rows_of;
use crate::fault::FormFault;
use crate::formed::Formed;
use crate::value::number;
use plain_data::Listed;
use serde_json::Value;
use std::alloc::Global;
use std::marker::PhantomData;

/// How a value is read that has to pass a test.
pub trait Form {
    type Read: Drop;

    ghost use Rattle.std.specs.Prelude.{ℕ, Bool, List, Result};
    ghost use Rattle.serde_json.specs.Data.{Data};

    /// What a value is read as, or the path of the first place that doesn't fit.
    ghost form: { Self → Data → Result Self.Read (List ℕ) };

    /// What holds of all that is read.
    ghost passes: { Self → Self.Read → Bool };

    fn read(&self, alloc: Global, value: &Value) -> Result<Self::Read, FormFault>
        ensures exact { Gives (λ x. x) result (form self.now (view value.now)) }
        ensures fit { IfOk result (λ x. passes self.now x ≡ true) };
}

/// What the type says.
impl<T: Formed> Form for PhantomData<T> {
    type Read = T;

    ghost form = { λ _. T.form };

    ghost passes = { λ _ _. true };

    fn read(&self, alloc: Global, value: &Value) -> Result<T, FormFault> {
        T::of_value(alloc, value)
    }
}

/// A whole number from `least` to `most`.
#[derive(Drop)]
pub struct Within {
    pub least: u32,
    pub most: u32,
}

impl Form for Within {
    type Read = u32;

    ghost form = { λ range. form.number_at range.least range.most };

    ghost passes = { λ range number. nat_le range.least number && nat_le number range.most };

    fn read(&self, alloc: Global, value: &Value) -> Result<u32, FormFault> {
        number(alloc, value, self.least, self.most)
    }
}

/// An array of at most so many.
#[derive(Drop)]
pub struct ArrayUpTo<F: Drop> {
    pub longest: usize,
    pub each: F,
}

impl<F: Form + Drop> Form for ArrayUpTo<F> {
    type Read = Listed<F::Read>;

    ghost form = { λ array. form.array_up_to array.longest (F.form array.each) };

    ghost passes = { λ array rows. nat_le (length rows) array.longest && list_all (F.passes array.each) rows };

    #[tactic(auto, using(crate::proofs::Items::length_as_count), unfolding(crate::specs::Form::array_if))]
    fn read(&self, alloc: Global, value: &Value) -> Result<Listed<F::Read>, FormFault> {
        match value.as_array() {
            Some(items) => {
                if items.len() > self.longest {
                    return Err(FormFault::here(alloc));
                }
                Ok(Listed::new(rows_of(alloc, items, &self.each)?))
            }
            None => Err(FormFault::here(alloc)),
        }
    }
}

/// An array of as many as that.
#[derive(Drop)]
pub struct ArrayOf<F: Drop, const N: usize> {
    pub each: F,
}

impl<F: Form + Drop, const N: usize> Form for ArrayOf<F, N> {
    type Read = [F::Read; N];

    ghost form = { λ array. form.array_of N (F.form array.each) };

    ghost passes = { λ array rows. (length rows == N) && list_all (F.passes array.each) rows };

    #[tactic(auto, using(crate::proofs::Items::length_as_count), unfolding(crate::specs::Form::array_if))]
    fn read(&self, alloc: Global, value: &Value) -> Result<[F::Read; N], FormFault> {
        match value.as_array() {
            Some(items) => {
                if items.len() != N {
                    return Err(FormFault::here(alloc));
                }
                let rows = rows_of(alloc, items, &self.each)?;
                Ok(<[F::Read; N]>::try_from(rows).unwrap())
            }
            None => Err(FormFault::here(alloc)),
        }
    }
}
