//! Commands' texts, written and read again.

use book_rows::Command;
use command_text::{BodyFault, body_of_command, command_of_body, command_of_value};
use json_form::{FormFault, value_of_bytes};
use plain_data::{NoMemory, Text};
use sample_office::{FACTS, PLAN, RENTS, START, UNIT, written};
use std::alloc::Global;

const LIMITS: &str =
    "{'extremely_low':[0,0,0,0,0,0,0,0,0,0,0,7],'from':'2024-01-01','kind':'limits',\
    'low':[1,2,3,4,5,6,7,8,9,10,11,12],'very_low':[0,0,0,0,0,0,0,0,0,0,0,9999999]}";

const APPLY: &str =
    "{'accessible':true,'annual':14000,'kind':'apply','name':'Cy Long','persons':3,'preferences':[1,2],'size':2}";

fn read(alloc: Global, text: &str) -> Result<Command, FormFault> {
    let value = value_of_bytes(alloc, text.as_bytes())?;
    command_of_value(alloc, &value)
}

/// The text of a command, which goes out of use.
fn text_of(alloc: Global, asked: Command) -> Option<Text> {
    let text = body_of_command(alloc, &asked);
    asked.let_go();
    text.ok()
}

/// The text of the command that was read of the text.
fn text_again(alloc: Global, text: &str) -> Option<Text> {
    match read(alloc, text) {
        Ok(asked) => text_of(alloc, asked),
        Err(_) => None,
    }
}

/// The text of the command that was read of its text in a book.
fn body_again(alloc: Global, body: &[u8]) -> Option<Text> {
    match command_of_body(alloc, body) {
        Ok(asked) => text_of(alloc, asked),
        Err(_) => None,
    }
}

// Two commands are the same where their texts are.
fn is_kept(alloc: Global, text: &str) -> Option<bool> {
    let text = written(alloc, text).ok()?;
    let body = text_again(alloc, &text)?;
    let again = body_again(alloc, body.as_bytes())?;
    Some(body.as_bytes() == text.as_bytes() && again == body)
}

const COMMANDS: [&str; 19] = [
    PLAN,
    UNIT,
    RENTS,
    LIMITS,
    APPLY,
    "{'applicant':4294967295,'kind':'remove'}",
    "{'accessible':false,'household':1,'kind':'ask_transfer','wanted':true}",
    "{'from':'2024-06-01','household':1,'kind':'transfer','seen':2,'unit':3}",
    "{'household':1,'kind':'move_out','last':'2025-10-15','seen':3}",
    "{'from':'2024-06-01','household':1,'kind':'terminate','seen':3}",
    "{'household':1,'kind':'withdraw','record':2,'seen':3}",
    "{'kind':'close','month':'2024-05'}",
    START,
    "{'applicant':3,'facts':FACTS,'from':'2024-02-01','kind':'admit','unit':2}",
    "{'facts':FACTS,'from':'2025-01-01','household':1,'kind':'annual','seen':2}",
    "{'done':'2024-07-01','event':'2024-03-10','facts':FACTS,'from':'2024-05-01','household':1,'kind':'interim',\
    'notice':'2024-03-20','seen':1}",
    "{'done':'2024-07-01','facts':FACTS,'from':'2024-08-01','household':1,'kind':'resume','seen':4}",
    "{'from':'2025-07-01','household':1,'kind':'gross','seen':1}",
    "{'facts':FACTS,'from':'2024-01-01','household':1,'kind':'correct','record':1,'seen':2}",
];

// Each text is its command's own: compact, with the names in byte order.
#[test]
fn each_command_has_its_text(rt: HostRuntime) {
    for text in &COMMANDS {
        assert!(rt; is_kept(rt.alloc(), *text) == Some(true), "{text}");
    }
}

/// Why the text is no command, unless it is one.
fn fault_of(alloc: Global, text: &str) -> Option<FormFault> {
    match read(alloc, text) {
        Ok(asked) => {
            asked.let_go();
            None
        }
        Err(fault) => Some(fault),
    }
}

fn changed(alloc: Global, text: &str, old: &str, new: &str) -> Result<String, NoMemory> {
    let whole = text.replace(alloc, "FACTS", FACTS)?;
    let changed = whole.replace(alloc, old, new)?;
    written(alloc, &changed)
}

/// Why the changed text is no command, unless it is one.
fn fault_of_changed(alloc: Global, text: &str, old: &str, new: &str) -> Option<FormFault> {
    match changed(alloc, text, old, new) {
        Ok(changed) => fault_of(alloc, &changed),
        Err(NoMemory) => Some(FormFault::NoMemory),
    }
}

fn is_at(fault: &Option<FormFault>, path: &str) -> bool {
    match fault {
        Some(FormFault::BadField(found)) => found.as_str() == path,
        _ => false,
    }
}

const PATHS: [(&str, &str, &str, &str); 48] = [
    (PLAN, "'kind'", "'kinds'", "kind"),
    (PLAN, "'plan'", "'plans'", "kind"),
    (PLAN, "2024-01", "1999-12", "first"),
    (PLAN, "2024-01", "2100-01", "first"),
    (PLAN, "false", "0", "early"),
    (PLAN, "'method':1", "'method':0", "method"),
    (PLAN, "'method':1", "'method':3", "method"),
    (PLAN, "month':1", "month':0", "fiscal_month"),
    (PLAN, "month':1", "month':13", "fiscal_month"),
    (PLAN, "30", "366", "report_days"),
    (PLAN, "200", "10001", "passbook"),
    (PLAN, "'expected':10", "'expected':10000", "expected"),
    // Six pairs are asked for before any of them is looked at.
    (PLAN, "[1,1],", "", "bounds"),
    (PLAN, "[1,1],", "[0,1],[1],", "bounds"),
    (PLAN, "[2,4]", "[2,4,5]", "bounds[2]"),
    (PLAN, "[2,4]", "[0,4]", "bounds[2][0]"),
    (PLAN, "[2,4]", "[17,4]", "bounds[2][0]"),
    (PLAN, "[2,4]", "[2,17]", "bounds[2][1]"),
    (PLAN, "[2,4]", "[5,4]", "bounds[2][1]"),
    (PLAN, "[1,2],'r", "[1,100],'r", "ranks[1]"),
    (PLAN, "[1,2],'r", "[0],'r", "ranks[0]"),
    (
        PLAN,
        "[1,2],'r",
        "[1,1,1,1,1,1,1,1,1,1,1,1,1,1,1,1,1],'r",
        "ranks",
    ),
    (PLAN, "'ranks'", "'rank':1,'ranks'", "?"),
    // The kind comes before every other field.
    (UNIT, "'unit','name':'A-101'", "'house'", "kind"),
    // The fields of the other kind are asked for.
    (UNIT, "'unit'", "'apply'", "size"),
    (UNIT, "A-101", "", "name"),
    (UNIT, "A-101", "A-101234567", "name"),
    (UNIT, "A-101", " A-101", "name"),
    (UNIT, "A-101", "A-101 ", "name"),
    (UNIT, "A-101", "A\\u001f1", "name"),
    (UNIT, "A-101", "A\\u007f1", "name"),
    (UNIT, "A-101", "\u{c4}-101", "name"),
    (UNIT, "'group':1", "'group':100", "group"),
    (UNIT, "'bedrooms':1", "'bedrooms':6", "bedrooms"),
    (APPLY, "'size':2", "'size':13", "size"),
    // Fewer persons than the family has members, and 17 of them
    (APPLY, "'persons':3", "'persons':1", "persons"),
    (APPLY, "'persons':3", "'persons':17", "persons"),
    (APPLY, "[1,2]", "[1,17]", "preferences[1]"),
    (APPLY, "14000", "10000000", "annual"),
    (LIMITS, ",11,12]", ",11]", "low"),
    (LIMITS, ",11,12]", ",11,10000000]", "low[11]"),
    (LIMITS, "'very_low':[0", "'very_low':[-1", "very_low[0]"),
    (RENTS, "2024-01-01", "2024-02-30", "from"),
    (RENTS, "700", "100000", "contract_rent"),
    (RENTS, "60", "10000", "utility"),
    (START, "1953-06-01", "1953-06-31", "facts.members[0].born"),
    (START, "'members'", "'persons'", "facts.members"),
    (START, "'unit':1", "'unit':4294967296", "unit"),
];

#[test]
fn a_change_leaves_a_first_bad_path(rt: HostRuntime) {
    for (text, old, new, path) in &PATHS {
        let fault = fault_of_changed(rt.alloc(), *text, *old, *new);
        assert!(rt; is_at(&fault, *path), "{old}: {new}");
    }
}

const ENDS: [(&str, &str, &str); 20] = [
    (PLAN, "2024-01", "2000-01"),
    (PLAN, "2024-01", "2099-12"),
    (PLAN, "'method':1", "'method':2"),
    (PLAN, "month':1", "month':12"),
    (PLAN, "30", "0"),
    (PLAN, "30", "365"),
    (PLAN, "200", "10000"),
    (PLAN, "'expected':10", "'expected':9999"),
    (PLAN, "[5,10]", "[16,16]"),
    (PLAN, "[1,2],'r", "[],'r"),
    (PLAN, "[1,2],'r", "[99,1,1,1,1,1,1,1,1,1,1,1,1,1,1,1],'r"),
    (UNIT, "A-101", "~"),
    (UNIT, "A-101", "A 10123456"),
    (UNIT, "'group':1", "'group':99"),
    (UNIT, "'bedrooms':1", "'bedrooms':5"),
    (APPLY, "'persons':3", "'persons':16"),
    (APPLY, "[1,2]", "[16]"),
    (APPLY, "14000", "9999999"),
    (RENTS, "700", "99999"),
    (RENTS, "60", "9999"),
];

#[test]
fn ends_of_ranges_are_within_them(rt: HostRuntime) {
    for (text, old, new) in &ENDS {
        assert!(rt;
            fault_of_changed(rt.alloc(), *text, *old, *new).is_none(),
            "{new}"
        );
    }
}

fn is_no_body(alloc: Global, bytes: &[u8]) -> bool {
    match command_of_body(alloc, bytes) {
        Ok(asked) => {
            asked.let_go();
            false
        }
        Err(fault) => fault == BodyFault::BadBody,
    }
}

const OTHERS: [&[u8]; 9] = [
    b"",
    b"{}",
    b"\xff",
    // A blank, another order, a repeated name, an escape and an unlisted member
    br#"{"kind":"close", "month":"2024-05"}"#,
    br#"{"month":"2024-05","kind":"close"}"#,
    br#"{"kind":"close","kind":"close","month":"2024-05"}"#,
    br#"{"kind":"c\u006cose","month":"2024-05"}"#,
    br#"{"kind":"close","month":"2024-05","year":2024}"#,
    br#"{"kind":"close","month":"2024-13"}"#,
];

#[test]
fn another_text_is_no_body(rt: HostRuntime) {
    for bytes in &OTHERS {
        assert!(rt; is_no_body(rt.alloc(), *bytes), "{bytes:?}");
    }
}
