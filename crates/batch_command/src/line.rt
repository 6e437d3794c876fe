//! One line is answered.

ghost use Rattle.std.specs.Prelude.{◌≡◌, ◌++◌, ℕ, true, IfOk};
ghost use Rattle.clerk_desk.specs.Below.office_step.Step.{step, is_fit_call};
ghost use Rattle.clerk_desk.specs.Below.office_answers.Answering.{answer_to};
ghost use Rattle.json_front.specs.Lines.{line_from};
ghost use Rattle.reply_text.specs.Replies.{bad_form_text};
ghost use Rattle.clerk_desk.specs.OpenBook.{IsOpen, StaysOpen};
ghost use Rattle.clerk_desk.specs.Serving.{IsFurther};
ghost use Rattle.batch_command.specs.Output.{session, is_passed_over, line_end, told_of, told_by, told_of_call, answered_text};
ghost use Rattle.batch_command.specs.Line.{TellsLine, IsText, WritesText, AnswersLine, LineBlames, SinkBlames, TellBlames, IsMadeBy, TellCrash, LineCrash};

use crate::Ending;
use clerk_desk::office_answers::{Asked, Question, Reply};
use clerk_desk::office_core::{Call, Office};
use clerk_desk::serve;
use days_core::Day;
use json_form::FormFault;
use json_front::{BatchLine, line_of_bytes};
use keeper_core::Keeper;
use office_io::{Clock, Sink, write_whole};
use plain_data::{NoMemory, Text};
use reply_text::{text_of_answer, text_of_bad_form, text_of_reply};
use std::alloc::Global;

/// Every act of a batch has this session.
const SESSION: u32 = 1;

/// Answers a line, unless it is passed over. None says that the batch goes on.
pub fn answer_line<K: Keeper, W: Sink, C: Clock>(
    alloc: Global,
    office: &mut Office,
    line: &[u8],
    sink: &mut W,
    clock: &C,
    keeper: &mut K,
) -> Option<Ending>
    requires told { IsOpen K.Keeper office.old keeper.old }
    ensures answered { (day : ℕ) × C.may_show clock.now day × AnswersLine (told_of office.old.capacity office.old.book (record { line = line.now; day = day }))
        office.old.book office.new.book (W.held sink.old) (W.held sink.new) result }
    ensures stays { StaysOpen K.Keeper office.old keeper.old office.new keeper.new }
    ensures blames { LineBlames (W.faults sink.old) (W.faults sink.new) (K.faults keeper.old) (K.faults keeper.new) result }
    ensures crash { K.tells_crash keeper.new → LineCrash (IsMadeBy (C.may_show clock.now) office.old.capacity office.old.book
        (λ day. told_of office.old.capacity office.old.book (record { line = line.now; day = day })))
        office.old.book office.new.book (K.holds keeper.new) (K.leaves keeper.old) (K.leaves keeper.new) result }
{
    match answer_of_line(alloc, office, keeper, clock.today(), line) {
        Ok(text) => write_answer(sink, &text),
        Err(ending) => Some(ending),
    }
}

/// What a line is answered with while the clock shows the day, with its line end; nothing where it is passed over.
pub fn answer_of_line<K: Keeper>(
    alloc: Global,
    office: &mut Office,
    keeper: &mut K,
    today: Day,
    line: &[u8],
) -> Result<Text, Ending>
    requires told { IsOpen K.Keeper office.old keeper.old }
    ensures told { TellsLine (told_of office.old.capacity office.old.book (record { line = line.now; day = today })) office.old.book office.new.book result }
    ensures stays { StaysOpen K.Keeper office.old keeper.old office.new keeper.new }
    ensures blames { TellBlames (K.faults keeper.old) (K.faults keeper.new) result }
    ensures crash { K.tells_crash keeper.new → TellCrash (IsFurther office.old.capacity office.old.book
        (told_of office.old.capacity office.old.book (record { line = line.now; day = today })).book)
        office.old.book office.new.book (K.holds keeper.new) (K.leaves keeper.old) (K.leaves keeper.new) result }
{
    if is_passed_over(line) {
        return Ok(Text::new(Vec::new(alloc)));
    }
    told(alloc, office, keeper, today, line)
}

/// Writes an answer. None says that it was written whole.
pub fn write_answer<W: Sink>(sink: &mut W, text: &Text) -> Option<Ending>
    ensures written { WritesText text.now (W.held sink.old) (W.held sink.new) result }
    ensures blames { SinkBlames (W.faults sink.old) (W.faults sink.new) result }
{
    if write_whole(sink, text.as_bytes()) {
        None
    } else {
        Some(Ending::WriteFault)
    }
}

fn is_passed_over(line: &[u8]) -> bool
    ensures { result ≡ is_passed_over line.now }
{
    line.is_empty() || line == b"\r".as_slice()
}

/// What a line is answered with, with its line end.
fn told<K: Keeper>(
    alloc: Global,
    office: &mut Office,
    keeper: &mut K,
    today: Day,
    line: &[u8],
) -> Result<Text, Ending>
    requires told { IsOpen K.Keeper office.old keeper.old }
    ensures told { TellsLine (told_by office.old.capacity office.old.book today (line_from line.now)) office.old.book office.new.book result }
    ensures stays { StaysOpen K.Keeper office.old keeper.old office.new keeper.new }
    ensures blames { TellBlames (K.faults keeper.old) (K.faults keeper.new) result }
    ensures crash { K.tells_crash keeper.new → TellCrash (IsFurther office.old.capacity office.old.book
        (told_by office.old.capacity office.old.book today (line_from line.now)).book)
        office.old.book office.new.book (K.holds keeper.new) (K.leaves keeper.old) (K.leaves keeper.new) result }
{
    match line_of_bytes(alloc, line) {
        Ok(BatchLine::Act { today: day, call }) => {
            answer_call(alloc, office, keeper, day.unwrap_or(today), call)
        }
        Ok(BatchLine::Ask(question)) => answered(alloc, office, &question),
        Err(FormFault::BadField(path)) => Ok(answer_bad_form(alloc, path.as_str())?),
        Err(FormFault::NoMemory) => Err(Ending::NoMemory),
    }
}

/// The office's reply to a call of that day, as a line with its end.
pub fn answer_call<K: Keeper>(
    alloc: Global,
    office: &mut Office,
    keeper: &mut K,
    day: Day,
    call: Call,
) -> Result<Text, Ending>
    requires fit { is_fit_call call ≡ true }
    requires told { IsOpen K.Keeper office.old keeper.old }
    ensures told { TellsLine (told_of_call office.old.book (step office.old.book office.old.capacity session day call)) office.old.book office.new.book result }
    ensures stays { StaysOpen K.Keeper office.old keeper.old office.new keeper.new }
    ensures blames { TellBlames (K.faults keeper.old) (K.faults keeper.new) result }
    ensures crash { K.tells_crash keeper.new → TellCrash (IsFurther office.old.capacity office.old.book
        (told_of_call office.old.book (step office.old.book office.old.capacity session day call)).book)
        office.old.book office.new.book (K.holds keeper.new) (K.leaves keeper.old) (K.leaves keeper.new) result }
{
    match serve(alloc, office, keeper, SESSION, day, call) {
        Reply::StoreFault => Err(Ending::StoreFault),
        Reply::NoMemory => Err(Ending::NoMemory),
        reply => Ok(with_end(text_of_reply(alloc, &reply)?)?),
    }
}

/// The answer to a question, or why there is none.
fn answered(alloc: Global, office: &Office, question: &Question) -> Result<Text, Ending>
    ensures { IsText (answered_text (answer_to office.now.book question.now)) result }
{
    match office.ask(alloc, question) {
        Ok(answer) => Ok(with_end(text_of_answer(alloc, &answer)?)?),
        Err(Asked::Refused(refusal)) => {
            let reply = Reply::Refused(refusal);
            Ok(with_end(text_of_reply(alloc, &reply)?)?)
        }
        Err(Asked::NoMemory) => Err(Ending::NoMemory),
    }
}

/// What an input of another form is answered with, by its first bad path, as a line with its end.
pub fn answer_bad_form(alloc: Global, path: &str) -> Result<Text, NoMemory>
    ensures { IfOk result (λ answer. answer ≡ bad_form_text path.now ++ line_end) }
{
    with_end(text_of_bad_form(alloc, path)?)
}

/// The text with a line end.
fn with_end(text: Text) -> Result<Text, NoMemory>
    ensures { IfOk result (λ ended. ended ≡ text ++ line_end) }
{
    let mut bytes = text.into_bytes();
    bytes.push(b'\n')?;
    Ok(Text::new(bytes))
}
