//! Copies of tables.

ghost use Rattle.std.specs.Prelude.{◌≡◌, IfOk};
ghost use Rattle.book_rows.specs.Book.{book_of};

use book_rows::{ActRow, Tables};
use plain_data::NoMemory;
use std::alloc::Global;

/// Other tables of the same rows.
pub fn copy_of_tables(alloc: Global, tables: &Tables) -> Result<Tables, NoMemory>
    ensures { IfOk result (λ copy. book_of copy ≡ book_of tables.now) }
{
    Ok(Tables {
        acts: copy_of_acts(alloc, &tables.acts)?,
        records: tables.records.to_vec(alloc)?,
        lines: tables.lines.to_vec(alloc)?,
    })
}

fn copy_of_acts(alloc: Global, acts: &[ActRow]) -> Result<Vec<ActRow>, NoMemory>
    ensures { IfOk result (λ copy. copy.items ≡ acts.now) }
{
    let mut copies = Vec::with_capacity(alloc, acts.len())?;
    for act in acts {
        copies.push(act.try_clone()?)?;
    }
    Ok(copies)
}
