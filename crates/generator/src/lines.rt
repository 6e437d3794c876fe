//! The acts as lines of a batch.

ghost use Rattle.std.specs.Prelude.{◌≡◌, ◌++◌, IfOk, OnOk, flat_map};
ghost use Rattle.std.specs.List.{enumerate_from};
ghost use Rattle.serde_json.specs.Written.{compact_text};
ghost use Rattle.json_form.specs.Written.{day_data};
ghost use Rattle.generator.specs.Lines.{line_text, made_line, made_text};

use crate::MadeAct;
use crate::months::made_acts;
use command_body::body_of_command;
use days_core::Day;
use json_form::Written;
use plain_data::{NoMemory, Text};
use std::alloc::Global;
use text_columns::{number_text, push};

/// What the clerk of an office of so many units asks over two years, as the lines of a batch; of 300 units where more are
/// wanted. The clerk is 1, and the requests are numbered from 1.
pub fn made_lines(alloc: Global, units: u32) -> Result<Text, NoMemory>
    ensures { IfOk result (λ text. text ≡ made_text units) }
{
    let acts = made_acts(alloc, units)?;
    lines_of(alloc, &acts)
}

fn lines_of(alloc: Global, acts: &[MadeAct]) -> Result<Text, NoMemory>
    ensures { IfOk result (λ text. text ≡ flat_map line_text (enumerate_from 1 acts.now)) }
{
    let mut text = Vec::new(alloc);
    for (place, act) in acts.iter().enumerate() {
        push_line(alloc, &mut text, place as u64 + 1, act)?;
    }
    Ok(Text::new(text))
}

fn push_line(alloc: Global, text: &mut Vec<u8>, request: u64, act: &MadeAct) -> Result<(), NoMemory>
    ensures { OnOk result (text.new.items ≡ text.old.items ++ line_text (request, act.now)) }
{
    let line = made_line(alloc, request, act)?;
    push(text, line.as_bytes())?;
    push(text, b"\n")
}

/// The act as a line of a batch, without its line end: the call of clerk 1 with the request of that number.
pub fn made_line(alloc: Global, request: u64, act: &MadeAct) -> Result<Text, NoMemory>
    ensures { IfOk result (λ line. line ≡ made_line (request, act.now)) }
{
    let body = body_of_command(alloc, &act.command)?;
    let request = number_text(alloc, request)?;
    let day = written_day(alloc, act.day)?;
    let mut line = Vec::new(alloc);
    push(&mut line, b"{\"act\":")?;
    push(&mut line, body.as_bytes())?;
    push(&mut line, b",\"clerk\":1,\"request\":")?;
    push(&mut line, request.as_bytes())?;
    push(&mut line, b",\"today\":")?;
    push(&mut line, day.as_bytes())?;
    push(&mut line, b"}")?;
    Ok(Text::new(line))
}

/// The day as JSON.
fn written_day(alloc: Global, day: Day) -> Result<Text, NoMemory>
    ensures { IfOk result (λ text. text ≡ compact_text (day_data day)) }
{
    day.to_value(alloc)?.text(alloc)
}
