//! The rows of a call's act are drafted, or the call is refused.

ghost use Rattle.std.specs.Prelude.{◌≡◌, ◌≤◌, ◌<◌, ◌^◌, true, Err, length, option_copied, IfOk, IfErr, IfSome};
ghost use Rattle.days_core.specs.OfficeDays.{last_office_day};
ghost use Rattle.book_rows.specs.Book.{Book};
ghost use Rattle.book_rows.specs.Fit.{is_fit};
ghost use Rattle.book_replay.specs.Texts.{IsTextOf};
ghost use Rattle.office_answers.specs.Below.office_step.Refusals.{lines_full};
ghost use Rattle.office_answers.specs.Below.office_step.Step.{step as step_of, appends, last_act_day, is_fit_call};
ghost use Rattle.office_core.specs.Held.{IsNewTo};
ghost use Rattle.office_core.specs.Judged.{Judges};
ghost use Rattle.office_core.specs.Planned.{IsPlannedFor, HoldsRecord, planned_as};
ghost use Rattle.record_history.specs.Limits.{most_acts};

use crate::{Judgment, Step};
use book_replay::command_text::body_of_command;
use book_replay::office_laws::{days_are_lived, requests_are_once};
use book_rows::{ActRow, Batch, Command};
use days_core::Day;
use office_acts::{judge, lines_of};
use office_answers::office_refusals::{act_day, lines_full};
use office_answers::office_register::Register;
use office_answers::office_step::{Call, Capacity, Refusal};
use plain_data::{Listed, NoMemory, SharedText, Text};
use record_history::{Dates, Record};
use std::alloc::Global;
use voucher_core::Line;

/// How much a book may hold, and what else a call is judged by beside what is known.
#[derive(Clone, Copy)]
pub struct BookLimits {
    pub capacity: Capacity,
    /// The day of the last act, and 1880-01-01 where there is none.
    pub last: Day,
    /// How many lines there are.
    pub lines: u32,
}

/// The rows of an act that the office accepts, and the name of the household that it makes.
#[derive(Drop)]
pub struct Draft {
    batch: Batch,
    name: Option<Text>,
}

/// The step of a call of whose clerk and request there is no act, unless it is refused. It keeps the command that it is
/// given. The text of the command may be at hand.
pub fn new_step(
    alloc: Global,
    register: &Register,
    held: &BookLimits,
    session: u32,
    clock: Day,
    call: Call,
    at_hand: Option<&SharedText>,
) -> Result<Step, Judgment>
    requires fit { is_fit_call call ≡ true }
    requires most { held.now.capacity.acts ≤ most_acts }
    requires lived { held.now.last ≤ last_office_day }
    requires at_hand { IfSome (option_copied at_hand) (IsTextOf call.command) }
    ensures refused { (book : Book) → IsNewTo register.now.known held.now call book →
        IfErr result (λ judgment. Judges (step_of book held.now.capacity session clock call) (Err judgment)) }
    ensures appends { (book : Book) → IsNewTo register.now.known held.now call book →
        IfOk result (λ step. step_of book held.now.capacity session clock call ≡ appends step.rows) }
    ensures planned { (book : Book) → IsNewTo register.now.known held.now call book →
        IfOk result (IsPlannedFor held.now.capacity book) }
{
    match drafted(alloc, register, held, session, clock, &call, at_hand) {
        Ok(draft) => Ok(Step {
            batch: draft.batch,
            asked: call.command,
            name: draft.name,
        }),
        Err(judgment) => {
            call.let_go();
            Err(judgment)
        }
    }
}

/// The rows of the call, unless it is refused. Its text is made last.
fn drafted(
    alloc: Global,
    register: &Register,
    held: &BookLimits,
    session: u32,
    clock: Day,
    call: &Call,
    at_hand: Option<&SharedText>,
) -> Result<Draft, Judgment>
    requires fit { is_fit_call call.now ≡ true }
    requires most { held.now.capacity.acts ≤ most_acts }
    requires lived { held.now.last ≤ last_office_day }
    requires at_hand { IfSome (option_copied at_hand) (IsTextOf call.now.command) }
    ensures refused { (book : Book) → IsNewTo register.now.known held.now call.now book →
        IfErr result (λ judgment. Judges (step_of book held.now.capacity session clock call.now) (Err judgment)) }
    ensures appends { (book : Book) → IsNewTo register.now.known held.now call.now book →
        IfOk result (λ draft. step_of book held.now.capacity session clock call.now ≡ appends draft.batch) }
    ensures planned { (book : Book) → IsNewTo register.now.known held.now call.now book →
        IfOk result (λ draft. IsPlannedFor held.now.capacity book (planned_as call.now.command draft)) }
    ensures holds { IfOk result (λ draft. HoldsRecord (planned_as call.now.command draft)) }
{
    requests_are_once();
    days_are_lived();
    let day = act_day(held.last, clock);
    let made = match judge(register, held.capacity.acts, day, &call.command) {
        Ok(made) => made,
        Err(refusal) => return Err(Judgment::Refused(refusal)),
    };
    let Ok(lines) = lines_of(alloc, register, &call.command) else {
        return Err(Judgment::NoMemory);
    };
    if let Some(refusal) = full_of(held, &lines) {
        return Err(Judgment::Refused(refusal));
    }
    let Ok(name) = register.name_given(alloc, &call.command) else {
        return Err(Judgment::NoMemory);
    };
    let Ok(body) = text_for(alloc, &call.command, at_hand) else {
        return Err(Judgment::NoMemory);
    };
    let act = ActRow {
        n: register.count() + 1,
        session,
        clerk: call.clerk,
        request: call.request,
        day,
        body,
    };
    let lines = Listed::new(lines);
    Ok(Draft {
        batch: Batch { act, made, lines },
        name,
    })
}

/// Refused where the book can't hold these lines too.
fn full_of(held: &BookLimits, lines: &[Line]) -> Option<Refusal>
    requires { length lines.now < 2 ^ 32 }
    ensures { result ≡ lines_full held.now.lines (length lines.now) held.now.capacity.lines }
{
    lines_full(held.lines, lines.len() as u32, held.capacity.lines)
}

/// The text of a fit command: the one at hand, or else one that is written of it.
fn text_for(
    alloc: Global,
    command: &Command,
    at_hand: Option<&SharedText>,
) -> Result<SharedText, NoMemory>
    requires fit { is_fit command.now ≡ true }
    requires at_hand { IfSome (option_copied at_hand) (IsTextOf command.now) }
    ensures { IfOk result (IsTextOf command.now) }
{
    match at_hand {
        Some(body) => body.try_clone(),
        None => SharedText::new(body_of_command(alloc, command)?.into_bytes()),
    }
}

/// The day of the last of these acts, and 1880-01-01 where there is none.
pub fn last_day(acts: &[ActRow]) -> Day
    ensures { result ≡ last_act_day acts.now }
{
    match acts.last() {
        Some(row) => row.day,
        None => Day::from_number(0).unwrap(),
    }
}
