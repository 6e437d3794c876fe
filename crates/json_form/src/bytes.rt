//! From bytes to a value.

ghost use Rattle.json_form.specs.Gives.{Gives};
ghost use Rattle.json_form.specs.Form.{fit, data_from};
ghost use Rattle.serde_json.specs.View.{view};

use crate::fault::FormFault;
use serde_json::Value;
use std::alloc::Global;

/// Reads the value that the bytes are. They don't fit where they are not UTF-8 or no JSON, or where they nest
/// deeper than 127.
pub fn value_of_bytes(alloc: Global, bytes: &[u8]) -> Result<Value, FormFault>
    ensures { Gives (λ value. view value) result (fit (data_from bytes.now)) }
{
    match Value::from_slice(alloc, bytes) {
        Ok(value) => Ok(value),
        Err(error) if error.is_memory() => Err(FormFault::NoMemory),
        Err(_) => Err(FormFault::here(alloc)),
    }
}
