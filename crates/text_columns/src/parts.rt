//! The parts of a text.

ghost use Rattle.std.specs.Prelude.{◌≡◌, ◌++◌, ◌∷◌, [], decimal, IfOk, OnOk, string_bytes};
ghost use Rattle.std.specs.Fmt.{signed_decimal};
ghost use Rattle.text_columns.specs.Columns.{labelled};

use plain_data::NoMemory;
use std::alloc::Global;

/// Adds the bytes at the end.
pub fn push(text: &mut Vec<u8>, part: &[u8]) -> Result<(), NoMemory>
    ensures { OnOk result (text.new.items ≡ text.old.items ++ part.now) }
{
    text.extend_from_slice(part)?;
    Ok(())
}

/// Adds a line of a label and its value.
pub fn push_labelled(text: &mut Vec<u8>, label: &[u8], value: &[u8]) -> Result<(), NoMemory>
    ensures { OnOk result (text.new.items ≡ text.old.items ++ labelled label.now value.now) }
{
    push(text, label)?;
    push(text, value)?;
    push(text, b"\n")
}

pub fn number_text(alloc: Global, number: u64) -> Result<String, NoMemory>
    ensures { IfOk result (λ text. string_bytes text ≡ decimal number) }
{
    Ok(format!(in alloc; "{number}")?)
}

pub fn amount_text(alloc: Global, amount: i64) -> Result<String, NoMemory>
    ensures { IfOk result (λ text. string_bytes text ≡ signed_decimal amount) }
{
    Ok(format!(in alloc; "{amount}")?)
}
