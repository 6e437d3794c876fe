//! Columns of a fixed width.

ghost use Rattle.std.specs.Prelude.{◌≡◌, ◌++◌, ◌∷◌, [], OnOk, replicate};
ghost use Rattle.text_columns.specs.Columns.{left, right};

use crate::parts::push;
use plain_data::NoMemory;

/// Adds a part with spaces behind it.
pub fn push_left(text: &mut Vec<u8>, width: usize, part: &[u8]) -> Result<(), NoMemory>
    ensures { OnOk result (text.new.items ≡ text.old.items ++ left width part.now) }
{
    push(text, part)?;
    push_spaces(text, width.saturating_sub(part.len()))
}

/// Adds a part with spaces in front of it.
pub fn push_right(text: &mut Vec<u8>, width: usize, part: &[u8]) -> Result<(), NoMemory>
    ensures { OnOk result (text.new.items ≡ text.old.items ++ right width part.now) }
{
    push_spaces(text, width.saturating_sub(part.len()))?;
    push(text, part)
}

fn push_spaces(text: &mut Vec<u8>, count: usize) -> Result<(), NoMemory>
    ensures { OnOk result (text.new.items ≡ text.old.items ++ replicate count 32) }
{
    for done in 0..count {
        let _ = done;
        text.push(b' ')?;
    }
    Ok(())
}
