//! One row is answered.

ghost use Rattle.std.specs.Prelude.{◌≡◌, ℕ, true};
ghost use Rattle.applicant_rows.specs.Applicants.{is_fit_row};
ghost use Rattle.batch_command.specs.Below.clerk_desk.OpenBook.{IsOpen, StaysOpen};
ghost use Rattle.batch_command.specs.Below.clerk_desk.Serving.{IsFurther};
ghost use Rattle.batch_command.specs.Output.{told_by};
ghost use Rattle.batch_command.specs.Line.{TellsLine, AnswersLine, LineBlames, TellBlames, IsMadeBy, TellCrash, LineCrash};
ghost use Rattle.import_command.specs.Rows.{line_of_row, told_of_row};

use applicant_rows::ImportRow;
use batch_command::office_core::Office;
use batch_command::{Ending, answer_bad_form, answer_call, write_answer};
use days_core::Day;
use keeper_core::Keeper;
use office_io::{Clock, Sink};
use plain_data::Text;
use std::alloc::Global;

/// Answers a row. None says that the import goes on.
pub fn answer_row<K: Keeper, W: Sink, C: Clock>(
    alloc: Global,
    office: &mut Office,
    row: ImportRow,
    sink: &mut W,
    clock: &C,
    keeper: &mut K,
) -> Option<Ending>
    requires told { IsOpen K.Keeper office.old keeper.old }
    requires fit { is_fit_row row ≡ true }
    ensures answered { (day : ℕ) × C.may_show clock.now day × AnswersLine (told_of_row office.old.capacity office.old.book (record { row = row; day = day }))
        office.old.book office.new.book (W.held sink.old) (W.held sink.new) result }
    ensures stays { StaysOpen K.Keeper office.old keeper.old office.new keeper.new }
    ensures blames { LineBlames (W.faults sink.old) (W.faults sink.new) (K.faults keeper.old) (K.faults keeper.new) result }
    ensures crash { K.tells_crash keeper.new → LineCrash (IsMadeBy (C.may_show clock.now) office.old.capacity office.old.book
        (λ day. told_of_row office.old.capacity office.old.book (record { row = row; day = day })))
        office.old.book office.new.book (K.holds keeper.new) (K.leaves keeper.old) (K.leaves keeper.new) result }
{
    let today = clock.today();
    match told(alloc, office, keeper, today, row) {
        Ok(text) => write_answer(sink, &text),
        Err(ending) => Some(ending),
    }
}

/// What a row is answered with, with its line end.
fn told<K: Keeper>(
    alloc: Global,
    office: &mut Office,
    keeper: &mut K,
    today: Day,
    row: ImportRow,
) -> Result<Text, Ending>
    requires told { IsOpen K.Keeper office.old keeper.old }
    requires fit { is_fit_row row ≡ true }
    ensures told { TellsLine (told_by office.old.capacity office.old.book today (line_of_row row)) office.old.book office.new.book result }
    ensures stays { StaysOpen K.Keeper office.old keeper.old office.new keeper.new }
    ensures blames { TellBlames (K.faults keeper.old) (K.faults keeper.new) result }
    ensures crash { K.tells_crash keeper.new → TellCrash (IsFurther office.old.capacity office.old.book
        (told_by office.old.capacity office.old.book today (line_of_row row)).book)
        office.old.book office.new.book (K.holds keeper.new) (K.leaves keeper.old) (K.leaves keeper.new) result }
{
    match row {
        ImportRow::Call(call) => answer_call(alloc, office, keeper, today, call),
        ImportRow::Bad => Ok(answer_bad_form(alloc, "row")?),
    }
}
