//! The commands that print a report of the book.

ghost use Rattle.std.specs.Prelude.{◌≡◌, ℕ, Option, List, IfOk};
ghost use Rattle.program_answers.specs.Opening.{ComesOfBook, Says, door};
ghost use Rattle.program_answers.specs.Keeping.{StillTells, OutlivesStops};
ghost use Rattle.office_prog.specs.Report.{Reported, report_text};
ghost use Rattle.office_io.specs.declared.status.ExitStatus.TheVariants as exit;

use batch_command::clerk_desk::open_office;
use batch_command::office_core::Office;
use days_core::{Day, Month};
use forms_text::voucher_text;
use keeper_core::Keeper;
use line_records::lines_csv;
use office_io::{ExitStatus, Sink};
use office_reports::{due_text, targets_text};
use plain_data::{NoMemory, Text};
use program_answers::{LARGEST, finish, tell_unopened};
use std::alloc::Global;

/// A report of the book.
#[derive(Clone, Copy)]
pub enum Report {
    /// The application for a month.
    Voucher(Month),
    /// All lines.
    Export,
    /// The certifications that are due, seen from the day.
    Due(Day),
    /// How far the fiscal year of the day is with its admissions.
    Targets(Day),
}

/// Opens the keeper's book, writes the report of it, and gives the status. Nothing is read.
pub fn run_report<K: Keeper, W: Sink>(
    alloc: Global,
    report: Report,
    sink: &mut W,
    keeper: &mut K,
) -> ExitStatus
    ensures comes { (left : Option (List ℕ)) (source : ℕ) →
        ComesOfBook (Reported report) (K.holds keeper.old) (K.holds keeper.new) (K.bad keeper.new)
        (door left (W.held sink.old) source (W.faults sink.old) (K.faults keeper.old))
        (door left (W.held sink.new) source (W.faults sink.new) (K.faults keeper.new)) result }
    ensures tells_on { StillTells (K.holds keeper.old) (K.is_well keeper.new) (K.holds keeper.new) }
    ensures stopped { OutlivesStops (K.holds keeper.old) (K.leaves keeper.old) (K.tells_crash keeper.old)
        (K.holds keeper.new) (K.leaves keeper.new) (K.tells_crash keeper.new) }
{
    match open_office(alloc, keeper, LARGEST) {
        Ok(office) => {
            let _of_an_office = office.tables();
            write_report(alloc, report, sink, &office)
        }
        Err(fault) => tell_unopened(alloc, sink, fault),
    }
}

/// Writes the report of an office.
fn write_report<W: Sink>(alloc: Global, report: Report, sink: &mut W, office: &Office) -> ExitStatus
    ensures { (left : Option (List ℕ)) (source keeper : ℕ) → Says (record { status = exit.Done; text = report_text report office.now.book })
        (door left (W.held sink.old) source (W.faults sink.old) keeper) (door left (W.held sink.new) source (W.faults sink.new) keeper) result }
{
    match text_of_report(alloc, report, office) {
        Ok(text) => finish(sink, ExitStatus::Done, text.as_bytes()),
        Err(_) => ExitStatus::NoMemory,
    }
}

fn text_of_report(alloc: Global, report: Report, office: &Office) -> Result<Text, NoMemory>
    ensures { IfOk result (λ text. text ≡ report_text report office.now.book) }
{
    match report {
        Report::Voucher(month) => voucher_text(alloc, office, month),
        Report::Export => lines_csv(alloc, &office.tables().lines),
        Report::Due(day) => due_text(alloc, office, day),
        Report::Targets(day) => targets_text(alloc, office, day),
    }
}
