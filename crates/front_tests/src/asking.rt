//! Lines and bodies, read.

use command_text::body_of_command;
use days_core::Day;
use json_form::FormFault;
use json_front::{BatchLine, call_of_bytes, line_of_bytes};
use office_answers::Question;
use office_step::Call;
use sample_office::{FACTS, body, day, month, written};
use std::alloc::Global;
use std::test::Fail;

const CLOSING: &str = "{'clerk':1,'request':5,'act':{'kind':'close','month':'2024-01'}}";

/// Whether the call is clerk 1's of request 5, to close January.
fn is_closing(alloc: Global, call: &Call) -> Result<bool, Fail> {
    let own = body_of_command(alloc, &call.command)?;
    let wanted = body(alloc, "{'kind':'close','month':'2024-01'}")?;
    Ok(call.clerk == 1 && call.request == 5 && own.as_bytes() == wanted.as_bytes())
}

#[test]
fn reads_a_call(rt: HostRuntime) -> Result<(), Fail> {
    let alloc = rt.alloc();
    let call = call_of_bytes(alloc, written(alloc, CLOSING)?.as_bytes())?;
    let closes = is_closing(alloc, &call);
    call.let_go();
    assert!(rt; closes?);
    Ok(())
}

/// Whether the line is such a call, made on that day.
fn is_closing_on(alloc: Global, text: &str, on: Option<Day>) -> Result<bool, Fail> {
    let text = written(alloc, text)?;
    match line_of_bytes(alloc, text.as_bytes())? {
        BatchLine::Act { today, call } => {
            let closes = is_closing(alloc, &call);
            call.let_go();
            Ok(closes? && today == on)
        }
        BatchLine::Ask(_) => Ok(false),
    }
}

#[test]
fn reads_a_line_with_a_call(rt: HostRuntime) -> Result<(), Fail> {
    let alloc = rt.alloc();
    assert!(rt; is_closing_on(alloc, CLOSING, None)?);
    let dated = CLOSING.replace(alloc, "{'clerk", "{'today':'2024-01-01','clerk")?;
    assert!(rt; is_closing_on(alloc, &dated, Some(day("2024-01-01")))?);
    Ok(())
}

/// What the line asks, if it is a question.
fn question_of(alloc: Global, ask: &str) -> Result<Option<Question>, Fail> {
    let line = format!(in alloc; "{{'ask':{ask}}}")?;
    let line = written(alloc, &line)?;
    match line_of_bytes(alloc, line.as_bytes())? {
        BatchLine::Ask(question) => Ok(Some(question)),
        BatchLine::Act { today: _, call } => {
            call.let_go();
            Ok(None)
        }
    }
}

#[test]
fn reads_each_question(rt: HostRuntime) -> Result<(), Fail> {
    let (month, day) = (month("2024-06"), day("2024-06-01"));
    let household = 1;
    let target = 2;
    let unit = 3;
    for (ask, asked) in [
        (
            "{'kind':'household','household':1}",
            Question::Household { household },
        ),
        (
            "{'kind':'record','household':1,'record':2}",
            Question::Record { household, target },
        ),
        (
            "{'kind':'next','unit':3,'day':'2024-06-01'}",
            Question::Next { unit, day },
        ),
        (
            "{'kind':'voucher','month':'2024-06'}",
            Question::Voucher { month },
        ),
        (
            "{'kind':'paid','household':1,'month':'2024-06'}",
            Question::Paid { household, month },
        ),
        ("{'kind':'due','day':'2024-06-01'}", Question::Due { day }),
        (
            "{'kind':'targets','day':'2024-06-01'}",
            Question::Targets { day },
        ),
    ] {
        let found = question_of(rt.alloc(), ask)?;
        assert!(rt; found == Some(asked), "{ask}");
    }
    Ok(())
}

/// Why the text is no line of a batch, unless it is one.
fn fault_of_line(alloc: Global, text: &str) -> Option<FormFault> {
    match line_of_bytes(alloc, text.as_bytes()) {
        Ok(BatchLine::Act { today: _, call }) => {
            call.let_go();
            None
        }
        Ok(BatchLine::Ask(_)) => None,
        Err(fault) => Some(fault),
    }
}

/// Why the text is no call, unless it is one.
fn fault_of_call(alloc: Global, text: &str) -> Option<FormFault> {
    match call_of_bytes(alloc, text.as_bytes()) {
        Ok(call) => {
            call.let_go();
            None
        }
        Err(fault) => Some(fault),
    }
}

fn is_bad_at(fault: &Option<FormFault>, path: &str) -> bool {
    match fault {
        Some(FormFault::BadField(found)) => found.as_str() == path,
        _ => false,
    }
}

fn line_is_bad_at(alloc: Global, line: &str, path: &str) -> Result<bool, Fail> {
    let line = written(alloc, line)?;
    Ok(is_bad_at(&fault_of_line(alloc, &line), path))
}

const START: &str =
    "{'today':'2024-01-01','clerk':1,'request':4,'act':{'kind':'start','name':'Ada Reed','unit':1,'from':'2024-01-01',\
    'facts':FACTS}}";

const CHANGES: [(&str, &str, &str); 12] = [
    ("'2024-01-01','c", "'2024-01-32','c", "today"),
    // What is null is there.
    ("'2024-01-01','c", "null,'c", "today"),
    ("'clerk':1", "'clerk':0", "clerk"),
    ("'clerk':1", "'clerk':10000", "clerk"),
    ("'clerk':1", "'clerk':1.0", "clerk"),
    ("'request':4", "'request':0", "request"),
    ("'act'", "'acts'", "act"),
    ("'start'", "'begin'", "act.kind"),
    ("1953-06-01", "1953-06-31", "act.facts.members[0].born"),
    ("'unit':1", "'unit':1,'size':1", "act.?"),
    // The fields of the call come before members that aren't listed.
    ("'today'", "'day'", "?"),
    ("'today':'2024-01-01','clerk'", "'day':1,'clerks'", "clerk"),
];

#[test]
fn tells_the_first_bad_place_of_a_call(rt: HostRuntime) -> Result<(), Fail> {
    let alloc = rt.alloc();
    let start = START.replace(alloc, "FACTS", FACTS)?;
    for (old, new, path) in CHANGES {
        let changed = start.replace(alloc, old, new)?;
        assert!(rt; line_is_bad_at(alloc, &changed, path)?, "{new}");
    }
    Ok(())
}

const LINES: [(&str, &str); 13] = [
    ("", ""),
    ("  ", ""),
    ("no JSON", ""),
    ("[]", ""),
    ("{}", "clerk"),
    ("{'ask':null}", "ask"),
    ("{'ask':{}}", "ask.kind"),
    ("{'ask':{'kind':'rents','day':1}}", "ask.kind"),
    ("{'ask':{'kind':'paid','household':-1}}", "ask.household"),
    ("{'ask':{'kind':'voucher','month':'2024-13'}}", "ask.month"),
    (
        "{'ask':{'kind':'due','day':'2024-06-01','month':1}}",
        "ask.?",
    ),
    // Faults inside the question come first.
    ("{'ask':{'kind':'due'},'clerk':1}", "ask.day"),
    ("{'ask':{'kind':'due','day':'2024-06-01'},'clerk':1}", "?"),
];

#[test]
fn tells_the_first_bad_place_of_a_question(rt: HostRuntime) -> Result<(), Fail> {
    for (line, path) in LINES {
        assert!(rt; line_is_bad_at(rt.alloc(), line, path)?, "{line}");
    }
    Ok(())
}

// The body of a request tells no day.
#[test]
fn a_call_has_no_other_member(rt: HostRuntime) -> Result<(), Fail> {
    let start = written(rt.alloc(), START)?;
    assert!(rt; is_bad_at(&fault_of_call(rt.alloc(), &start), "?"));
    Ok(())
}
