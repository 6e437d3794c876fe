//! The rows of an import, answered one after another.

ghost use Rattle.std.specs.Prelude.{◌≡◌, true, Some, All};
ghost use Rattle.applicant_rows.specs.Applicants.{is_fit_row};
ghost use Rattle.batch_command.specs.Below.clerk_desk.OpenBook.{IsOpen, StaysOpen};
ghost use Rattle.batch_command.specs.Below.clerk_desk.Serving.{Outlives};
ghost use Rattle.batch_command.specs.Line.{LineBlames};
ghost use Rattle.import_command.specs.Rows.{RowsRan, LeavesByRow};

use crate::row::answer_row;
use applicant_rows::ImportRow;
use batch_command::Ending;
use batch_command::office_core::Office;
use keeper_core::Keeper;
use office_io::{Clock, Sink};
use std::alloc::Global;

/// Answers the rows, one after another. An answer is written once its act is kept.
pub fn answer_rows<K: Keeper, W: Sink, C: Clock>(
    alloc: Global,
    office: &mut Office,
    rows: Vec<ImportRow>,
    sink: &mut W,
    clock: &C,
    keeper: &mut K,
) -> Ending
    requires told { IsOpen K.Keeper office.old keeper.old }
    requires fit { All (λ row. is_fit_row row ≡ true) rows.items }
    ensures ran { RowsRan office.old.capacity (C.may_show clock.now) rows.items office.old.book office.new.book
        (W.held sink.old) (W.held sink.new) result }
    ensures stays { StaysOpen K.Keeper office.old keeper.old office.new keeper.new }
    ensures blames { LineBlames (W.faults sink.old) (W.faults sink.new) (K.faults keeper.old) (K.faults keeper.new) (Some result) }
    ensures stopped { Outlives (LeavesByRow office.old.capacity (C.may_show clock.now) rows.items)
        (K.holds keeper.old) (K.leaves keeper.old) (K.tells_crash keeper.old) (K.holds keeper.new) (K.leaves keeper.new) (K.tells_crash keeper.new) }
{
    for row in rows {
        if let Some(ending) = answer_row(alloc, office, row, sink, clock, keeper) {
            return ending;
        }
    }
    Ending::Done
}
