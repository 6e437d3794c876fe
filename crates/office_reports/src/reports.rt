//! The reports of `due` and `targets`.

ghost use Rattle.std.specs.Prelude.{◌≡◌, ◌++◌, IfOk, OnOk};
ghost use Rattle.std.specs.List.{flat_map};
ghost use Rattle.office_reports.specs.Reports.{admissions_text, due_line, due_text, targets_text, no_plan};

use days_core::{Day, text_of_day};
use office_core::{Admissions, Answer, Asked, DueDay, Office, Question};
use plain_data::{NoMemory, Text};
use std::alloc::Global;
use text_columns::{number_text, push, push_labelled};

/// The annual certifications that are due, seen from the day, one to a line.
pub fn due_text(alloc: Global, office: &Office, day: Day) -> Result<Text, NoMemory>
    ensures { IfOk result (λ text. text ≡ due_text office.now.book day) }
{
    let told = office.ask(alloc, &Question::Due { day });
    match &told {
        Ok(Answer::Due(due)) => due_lines(alloc, due.as_slice()),
        Err(Asked::Refused(_)) => no_plan(alloc),
        Err(Asked::NoMemory) => Err(NoMemory),
        Ok(_) => unreachable!(),
    }
}

fn due_lines(alloc: Global, dues: &[DueDay]) -> Result<Text, NoMemory>
    ensures { IfOk result (λ text. text ≡ flat_map due_line dues.now) }
{
    let mut text = Vec::new(alloc);
    for due in dues {
        push_due(alloc, &mut text, due)?;
    }
    Ok(Text::new(text))
}

fn push_due(alloc: Global, text: &mut Vec<u8>, due: &DueDay) -> Result<(), NoMemory>
    ensures { OnOk result (text.new.items ≡ text.old.items ++ due_line due.now) }
{
    let day = text_of_day(alloc, due.day)?;
    let household = number_text(alloc, due.household.into())?;
    push(text, day.as_bytes())?;
    push_labelled(text, b" household ", household.as_bytes())
}

/// How far the office is with the admissions of the fiscal year of the day, in five lines.
pub fn targets_text(alloc: Global, office: &Office, day: Day) -> Result<Text, NoMemory>
    ensures { IfOk result (λ text. text ≡ targets_text office.now.book day) }
{
    let told = office.ask(alloc, &Question::Targets { day });
    match &told {
        Ok(Answer::Targets(admissions)) => admissions_text(alloc, *admissions),
        Err(Asked::Refused(_)) => no_plan(alloc),
        Err(Asked::NoMemory) => Err(NoMemory),
        Ok(_) => unreachable!(),
    }
}

fn admissions_text(alloc: Global, admissions: Admissions) -> Result<Text, NoMemory>
    ensures { IfOk result (λ text. text ≡ admissions_text admissions) }
{
    let first_day = text_of_day(alloc, admissions.first_day)?;
    let admitted = number_text(alloc, admissions.admitted.into())?;
    let extremely_low = number_text(alloc, admissions.extremely_low.into())?;
    let expected = number_text(alloc, admissions.expected.into())?;
    let open: &[u8] = if admissions.opened { b"yes" } else { b"no" };
    let mut text = Vec::new(alloc);
    push_labelled(&mut text, b"fiscal year from ", first_day.as_bytes())?;
    push_labelled(&mut text, b"admitted ", admitted.as_bytes())?;
    push_labelled(&mut text, b"extremely low ", extremely_low.as_bytes())?;
    push_labelled(&mut text, b"expected ", expected.as_bytes())?;
    push_labelled(&mut text, b"open ", open)?;
    Ok(Text::new(text))
}

fn no_plan(alloc: Global) -> Result<Text, NoMemory>
    ensures { IfOk result (λ text. text ≡ no_plan) }
{
    Ok(Text::new(b"no plan\n".to_vec(alloc)?))
}
