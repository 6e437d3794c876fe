//! The lines of all closings, held.

ghost use Rattle.std.specs.Prelude.{◌≡◌, ◌≤◌, ℤ, pos, negsuc, ◌≤ℤ◌, if◌then◌else◌, length};
ghost use Rattle.voucher_core.specs.Lines.{is_for, paid};
ghost use Rattle.record_history.specs.Limits.{most_lines};

use crate::Line;
use days_core::Month;
use plain_data::NoMemory;
use std::alloc::Global;
use std::marker::Model;

/// The lines of all closings, at most 4,000,000. It is for callers outside: an office keeps its lines by closing.
///
/// Contracts see the list of lines, and beside it the room for more.
#[derive(Drop)]
pub struct LineBook {
    lines: Vec<Line>,
}

impl Model for LineBook {
    ghost use Rattle.std.specs.Prelude.{◌-◌, ◌≤◌, length, vec_len, vec_capacity};
    ghost use Rattle.voucher_core.specs.Book.{HeldLines};
    ghost use Rattle.record_history.specs.Limits.{most_lines};

    ghost Value = { HeldLines };

    ghost view = { λ book. record { lines = book.lines.items; room = vec_capacity book.lines - vec_len book.lines } };

    ghost invariant = { λ book. length book.lines.items ≤ most_lines };
}

impl LineBook {
    ghost use Rattle.std.specs.Prelude.{◌≡◌, ◌≤◌, ◌<◌, ◌+◌, ◌++◌, ◌∷◌, [], length, IsOk, IfOk, OnOk};
    ghost use Rattle.voucher_core.specs.Lines.{paid};
    ghost use Rattle.record_history.specs.Limits.{most_lines};

    pub fn new(alloc: Global) -> Result<LineBook, NoMemory>
        ensures { IfOk result (λ book. book ≡ record { lines = []; room = 0 }) }
    {
        Ok(LineBook {
            lines: Vec::new(alloc),
        })
    }

    /// Makes room for so many more lines.
    pub fn reserve(&mut self, count: usize) -> Result<(), NoMemory>
        ensures lines { self.new.lines ≡ self.old.lines }
        ensures room { OnOk result (count ≤ self.new.room) }
        ensures kept { self.old.room ≤ self.new.room }
        ensures succeeds { count ≤ self.old.room → IsOk result }
    {
        self.lines.reserve(count)?;
        Ok(())
    }

    /// Holds a line more, for which there is room.
    pub fn push(&mut self, line: Line)
        requires room { 1 ≤ self.old.room }
        requires few { length self.old.lines < most_lines }
        ensures lines { self.new.lines ≡ self.old.lines ++ line ∷ [] }
        ensures room { self.new.room + 1 ≡ self.old.room }
    {
        self.lines.push_reserved(line);
    }

    /// The lines in the order in which they came.
    pub fn lines(&self) -> &[Line]
        ensures lines { result.now ≡ self.now.lines }
        ensures few { length result.now ≤ most_lines }
    {
        &self.lines
    }

    /// What all lines pay for a household and month, in whole dollars.
    pub fn paid(&self, household: u32, month: Month) -> i64
        ensures { result ≡ paid household month self.now.lines }
    {
        paid_among(&self.lines, household, month)
    }
}

fn paid_among(lines: &[Line], household: u32, month: Month) -> i64
    requires { length lines.now ≤ most_lines }
    ensures { result ≡ paid household month lines.now }
{
    let mut paid = 0;
    for line in lines {
        paid += amount_for(line, household, month);
    }
    paid
}

/// The amount of a line where it is for that household and month, and else 0.
fn amount_for(line: &Line, household: u32, month: Month) -> i64
    ensures value { result ≡ (if is_for household month line.now then line.now.amount else pos 0) }
    ensures least { negsuc 2147483647 ≤ℤ result }
    ensures most { result ≤ℤ pos 2147483647 }
{
    if line.household == household && line.for_month == month {
        i64::from(line.amount)
    } else {
        0
    }
}
