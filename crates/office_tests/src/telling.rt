//! Acts that an office is told, as texts.

ghost use Rattle.std.specs.Prelude.{◌≡◌, ◌≤◌, ◌<◌, ◌+◌, ◌^◌, length, true, IfOk, IfSome};
ghost use Rattle.days_core.specs.OfficeDays.{last_office_month};
ghost use Rattle.record_history.specs.Held.{IsWithin, room_of};
ghost use Rattle.book_rows.specs.Fit.{is_fit};
ghost use Rattle.office_core.specs.Below.office_step.Acts.{name_given};
ghost use Rattle.office_core.specs.Below.office_register.Accepted.{IsAccepted};
ghost use Rattle.office_core.specs.Below.office_register.Registered.{HasDates};
ghost use Rattle.office_core.specs.Below.office_acts.Judged.{IsPlaced, ClosesBy};

use book_rows::Command;
use office_core::command_text::{BodyFault, command_of_body};
use office_core::office_acts::{judge, lines_of};
use office_core::office_refusals::certified;
use office_core::office_register::Register;
use office_core::office_step::{Made, Refusal};
use plain_data::{NoMemory, Text};
use record_history::{Dates, Record};
use sample_office::{body, office_day};
use std::alloc::{AllocError, Global};
use std::process::Abort;
use voucher_core::Line;

/// The facts of the sample with benefits of 10,800 and no medical expenses.
const OTHER: &str =
    "{'assets':[],'care_school':0,'care_work':0,'disability':0,'disposals':[],'exempt':false,\
    'incomes':[{'annual':10800,'kind':'Benefits','member':0}],'medical':0,\
    'members':[{'born':'1953-06-01','cared':false,'disabled':false,'helped':false,'relation':'Head','student':false}],\
    'welfare':0}";

/// A younger one with wages, which stand between the two.
const WORKER: [&str; 2] = [
    "{'assets':[],'care_school':0,'care_work':0,'disability':0,'disposals':[],'exempt':false,\
    'incomes':[{'annual':",
    ",'kind':'Wages','member':0}],'medical':0,\
    'members':[{'born':'1970-01-01','cared':false,'disabled':false,'helped':false,'relation':'Head','student':false}],\
    'welfare':0}",
];

/// Three who live together, and two heads.
const THREE: &str =
    "{'assets':[],'care_school':0,'care_work':0,'disability':0,'disposals':[],'exempt':false,'incomes':[],'medical':0,\
    'members':[{'born':'1970-01-01','cared':false,'disabled':false,'helped':false,'relation':'Head','student':false},\
    {'born':'1970-01-01','cared':false,'disabled':false,'helped':false,'relation':'Spouse','student':false},\
    {'born':'1970-01-01','cared':false,'disabled':false,'helped':false,'relation':'Other','student':false}],\
    'welfare':0}";

const HEADS: &str =
    "{'assets':[],'care_school':0,'care_work':0,'disability':0,'disposals':[],'exempt':false,'incomes':[],'medical':0,\
    'members':[{'born':'1970-01-01','cared':false,'disabled':false,'helped':false,'relation':'Head','student':false},\
    {'born':'1970-01-01','cared':false,'disabled':false,'helped':false,'relation':'Head','student':false}],\
    'welfare':0}";

/// The text of an act, where the facts are named.
fn with_facts(alloc: Global, text: &str) -> Result<String, AllocError> {
    let [before, after] = WORKER;
    let mut text = text.replace(alloc, "WORKER(", before)?;
    for (name, facts) in [
        (")", after),
        ("OTHER", OTHER),
        ("THREE", THREE),
        ("HEADS", HEADS),
    ] {
        text = text.replace(alloc, name, facts)?;
    }
    Ok(text)
}

fn read(alloc: Global, text: &str) -> Result<Command, BodyFault>
    ensures { IfOk result (λ asked. is_fit asked ≡ true) }
{
    let Ok(text) = with_facts(alloc, text) else {
        return Err(BodyFault::NoMemory);
    };
    let body = body(alloc, &text)?;
    command_of_body(alloc, body.as_bytes())
}

/// The command of that text.
pub fn command(rt: &impl Abort, alloc: Global, text: &str) -> Command
    ensures { is_fit result ≡ true }
{
    match read(alloc, text) {
        Ok(asked) => asked,
        Err(fault) => panic!(rt; "{fault:?}: {text}"),
    }
}

/// What an office knows.
#[derive(Drop)]
pub struct Known {
    pub register: Register,
}

impl Known {
    /// Lets all go. What that frees is in this function's proof, and in no test's.
    pub fn let_go(self) {}
}

/// What the act made, once it was judged and noted in an office that may hold a hundred acts.
pub fn act(
    rt: &impl Abort,
    alloc: Global,
    office: &mut Known,
    today: &str,
    text: &str,
) -> Result<Made, Refusal> {
    let asked = command(rt, alloc, text);
    match judge(&office.register, 100, office_day(today), &asked) {
        Ok(made) => {
            let reply = replied(rt, alloc, &office.register, &asked, &made);
            note(rt, alloc, &mut office.register, asked, made);
            Ok(reply)
        }
        Err(refusal) => {
            asked.let_go();
            Err(refusal)
        }
    }
}

/// What an act makes.
fn replied(
    rt: &impl Abort,
    alloc: Global,
    register: &Register,
    asked: &Command,
    made: &Option<Record>,
) -> Made
    requires within { IfSome made.now IsWithin }
    requires month { ClosesBy last_office_month asked.now }
{
    let lines = lines_made(rt, alloc, register, asked);
    reply_of(made, asked, &lines)
}

fn lines_made(rt: &impl Abort, alloc: Global, register: &Register, asked: &Command) -> Vec<Line>
    requires { ClosesBy last_office_month asked.now }
    ensures { length result.items < 2 ^ 32 }
{
    match lines_of(alloc, register, asked) {
        Ok(lines) => lines,
        Err(NoMemory) => panic!(rt; "no memory"),
    }
}

fn reply_of(made: &Option<Record>, asked: &Command, lines: &[Line]) -> Made
    requires made { IfSome made.now IsWithin }
    requires few { length lines.now < 2 ^ 32 }
{
    match (made, asked) {
        (Some(made), _) => certified(made),
        (None, Command::Close(close)) => Made::Closed {
            amount: lines
                .iter()
                .fold(0, |sum, line| i64::from(line.amount).wrapping_add(sum)),
            lines: lines.len() as u32,
            month: close.month,
        },
        _ => Made::Nothing,
    }
}

fn note(
    rt: &impl Abort,
    alloc: Global,
    register: &mut Register,
    asked: Command,
    made: Option<Record>,
)
    requires accepted { IsAccepted register.old.known asked made }
    requires placed { IfSome made (IsPlaced register.old.known) }
    requires within { IfSome made IsWithin }
    requires dates { IfSome made HasDates }
{
    let name = ready(rt, alloc, register, &asked, &made);
    register.note(asked, name, made);
}

/// The name that the act gives a household, once there is room for what it makes.
fn ready(
    rt: &impl Abort,
    alloc: Global,
    register: &mut Register,
    asked: &Command,
    made: &Option<Record>,
) -> Option<Text>
    requires { IfSome made.now (IsPlaced register.old.known) }
    ensures known { register.new.known ≡ register.old.known }
    ensures room { 1 ≤ register.new.room }
    ensures record_room { IfSome made.now (λ r. 1 ≤ room_of register.new.record_room r.household) }
    ensures name { result ≡ name_given register.old.known.applications asked.now }
{
    let household = household_of(register, made);
    let Ok(()) = register.reserve(household) else {
        panic!(rt; "no memory");
    };
    match register.name_given(alloc, asked) {
        Ok(name) => name,
        Err(NoMemory) => panic!(rt; "no memory"),
    }
}

fn household_of(register: &Register, made: &Option<Record>) -> u32
    requires { IfSome made.now (IsPlaced register.now.known) }
    ensures next { result ≤ length register.now.known.households + 1 }
    ensures made { IfSome made.now (λ r. r.household ≡ result) }
    ensures first { IfSome made.now (λ r. 1 ≤ result) }
{
    match made {
        Some(made) => made.household,
        None => 0,
    }
}

/// An office that was told so much on the first of 2024, each of which was accepted.
pub fn told(rt: &impl Abort, alloc: Global, texts: &[&str]) -> Known {
    let Ok(register) = Register::new(alloc) else {
        panic!(rt; "no memory");
    };
    let mut office = Known { register };
    for text in texts {
        accepted(rt, alloc, &mut office, text);
    }
    office
}

fn accepted(rt: &impl Abort, alloc: Global, office: &mut Known, text: &str) {
    let made = act(rt, alloc, office, "2024-01-01", text);
    assert!(rt; made.is_ok(), "{text}");
}

/// Tells the office of acts on a day, each with its answer.
pub fn tell(
    rt: &impl Abort,
    alloc: Global,
    office: &mut Known,
    today: &str,
    script: &[(&str, Result<Made, Refusal>)],
) {
    for (text, answer) in script {
        let made = act(rt, alloc, office, today, text);
        assert!(rt; made == *answer, "{text}: {made:?}");
    }
}
