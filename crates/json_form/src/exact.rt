//! Values whose text is exact.

ghost use Rattle.std.specs.Prelude.{◌≡◌, false, IfOk};
ghost use Rattle.serde_json.specs.View.{view};
ghost use Rattle.serde_json.specs.Data.{null};
ghost use Rattle.serde_json.specs.Written.{has_float, compact_text};

use plain_data::{NoMemory, Text};
use serde_json::Value;
use std::alloc::Global;

/// A value without a float, so that its text is exact.
#[derive(Drop)]
pub struct Exact {
    pub value: Value,
    pub ghost no_float: { has_float (view value) ≡ false },
}

impl Exact {
    pub fn null() -> Exact
        ensures { view result.value ≡ null }
    {
        Exact { value: Value::Null }
    }

    pub fn into_value(self) -> Value
        ensures value { view result ≡ view self.value }
        ensures no_float { has_float (view result) ≡ false }
    {
        self.value
    }

    /// Its text: compact JSON, with the members of each object in the byte order of their names.
    pub fn text(&self, alloc: Global) -> Result<Text, NoMemory>
        ensures { IfOk result (λ text. text ≡ compact_text (view self.now.value)) }
    {
        Ok(Text::new(self.value.to_string(alloc)?.into_bytes()))
    }
}
