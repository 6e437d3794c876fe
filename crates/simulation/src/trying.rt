//! A made office is answered in memory.

ghost use Rattle.std.specs.Prelude.{◌≡◌, ◌≤◌, IfOk};
ghost use Rattle.book_rows.specs.Book.{empty_book};
ghost use Rattle.simulation.specs.Trial.{book_after, summary, trial_text};
ghost use Rattle.record_history.specs.Limits.{most_acts, most_lines};

use crate::answering::answer_acts;
use crate::summary::summary;
use batch_command::office_core::office_laws::within_room;
use batch_command::office_core::{Capacity, Office};
use generator::{MadeAct, made_acts};
use keeper_core::MemoryKeeper;
use plain_data::{NoMemory, Text};
use std::alloc::Global;

/// Answers the lines of a made office of so many units, of 300 where more are wanted, on an office in memory of that capacity,
/// and tells how many acts and lines it has then and what the lines amount to.
pub fn trial(alloc: Global, capacity: Capacity, units: u32) -> Result<Text, NoMemory>
    requires acts { capacity.acts ≤ most_acts }
    requires lines { capacity.lines ≤ most_lines }
    ensures { IfOk result (λ text. text ≡ trial_text capacity units) }
{
    let acts = made_acts(alloc, units)?;
    let mut office = Office::new(alloc, capacity)?;
    summed_up(alloc, &mut office, &acts)
}

/// Answers the lines of these acts on an office with an empty book.
fn summed_up(alloc: Global, office: &mut Office, acts: &[MadeAct]) -> Result<Text, NoMemory>
    requires book { office.old.book ≡ empty_book }
    requires lines { office.old.capacity.lines ≤ most_lines }
    ensures { IfOk result (λ text. text ≡ summary (book_after office.old.capacity acts.now)) }
{
    let mut keeper = MemoryKeeper::new(alloc);
    answer_acts(alloc, office, &mut keeper, acts)?;
    within_room();
    summary(alloc, office.tables())
}
