//! The program's words, and `assess`.

use crate::runs::ran;
use keeper_core::MemoryKeeper;
use run_harness::{Told, Trial};
use sample_office::{FACTS, written};
use std::alloc::Global;
use std::process::Abort;

/// One person who turned 70 in the year before, with benefits of 9,600 and medical expenses of 1,000.
const HOUSEHOLD: &str =
    "{'day':'2024-01-01','passbook':200,'contract_rent':700,'utility':60,'facts':FACTS}";

const PAID: &str =
    "{'adjusted':8488,'annual':9600,'assistance':548,'reimbursement':0,'tenant_rent':152,'ttp':212}\n";

/// What the household of nothing is paid.
const NOTHING: &str =
    "{'adjusted':0,'annual':0,'assistance':735,'reimbursement':35,'tenant_rent':0,'ttp':25}\n";

const EXEMPT: &str =
    "{'adjusted':0,'annual':0,'assistance':760,'reimbursement':60,'tenant_rent':0,'ttp':0}\n";

/// Of costs of 1 and medical expenses of 1,000, what is above 288 is allowed.
const HELPED: &str =
    "{'adjusted':8487,'annual':9600,'assistance':548,'reimbursement':0,'tenant_rent':152,'ttp':212}\n";

const USAGE: &str =
    "usage: office [--book PATH] assess|batch|voucher MONTH|export|import CLERK|due DAY|targets DAY|make N|trial N|serve PORT WORKERS CONNECTIONS\n";

fn household(rt: &impl Abort, alloc: Global, old: &str, new: &str) -> Vec<u8> {
    let whole = HOUSEHOLD
        .replace(alloc, "FACTS", FACTS)
        .expect(rt, "memory");
    let changed = whole.replace(alloc, old, new).expect(rt, "memory");
    written(alloc, &changed).expect(rt, "memory").into_bytes()
}

/// Runs the program on the words, by 7 bytes at once.
fn told(rt: &impl Abort, alloc: Global, words: &str, input: &[u8]) -> Told {
    let trial = Trial {
        words,
        unread: None,
        unwritten: None,
        at_once: 7,
    };
    ran(rt, alloc, &mut MemoryKeeper::new(alloc), &trial, input)
}

/// Assesses the household, while those calls of the source and the sink fail.
fn told_at_faults(
    rt: &impl Abort,
    alloc: Global,
    unread: Option<u64>,
    unwritten: Option<u64>,
) -> Told {
    let trial = Trial {
        words: "assess",
        unread,
        unwritten,
        at_once: 7,
    };
    let input = household(rt, alloc, "", "");
    ran(rt, alloc, &mut MemoryKeeper::new(alloc), &trial, &input)
}

/// Whether the household, with the new text for the old one, is assessed so.
fn is_assessed(
    rt: &impl Abort,
    alloc: Global,
    change: (&str, &str),
    status: u8,
    text: &str,
) -> bool {
    let input = household(rt, alloc, change.0, change.1);
    told(rt, alloc, "assess", &input).is(status, text)
}

#[test]
fn assesses_a_household(rt: HostRuntime) {
    let alloc = rt.alloc();
    // Of members of one name the last is read.
    for (old, new, text) in [
        ("", "", PAID),
        (
            "'welfare':0",
            "'welfare':0,'incomes':[],'medical':0",
            NOTHING,
        ),
        (
            "'welfare':0",
            "'welfare':0,'exempt':true,'incomes':[],'medical':0",
            EXEMPT,
        ),
        ("'disability':0", "'disability':1", HELPED),
    ] {
        assert!(rt; is_assessed(&rt, alloc, (old, new), 0, text), "{text}");
    }
}

#[test]
fn says_why_it_assesses_nothing(rt: HostRuntime) {
    let alloc = rt.alloc();
    for (old, new, text) in [
        (
            "1953-06-01",
            "2024-02-30",
            "{'refused':{'kind':'Form','path':'facts.members[0].born'}}\n",
        ),
        (
            "'exempt'",
            "'extra':1,'exempt'",
            "{'refused':{'kind':'Form','path':'facts.?'}}\n",
        ),
        (
            "'member':0",
            "'member':1",
            "{'refused':{'kind':'FactsRule','number':8,'rule':3}}\n",
        ),
    ] {
        assert!(rt; is_assessed(&rt, alloc, (old, new), 8, text), "{text}");
    }
    let no_json = "{'refused':{'kind':'Form','path':''}}\n";
    assert!(rt; told(&rt, alloc, "assess", b"").is(8, no_json));
}

#[test]
fn takes_16384_bytes(rt: HostRuntime) {
    let alloc = rt.alloc();
    let mut input = household(&rt, alloc, "", "");
    input.resize(16_384, b' ').expect(&rt, "memory");
    assert!(rt; told(&rt, alloc, "assess", &input).is(0, PAID));
    input.push(b' ').expect(&rt, "memory");
    assert!(rt; told(&rt, alloc, "assess", &input).is(9, ""));
}

#[test]
fn tells_its_usage_to_other_words(rt: HostRuntime) {
    let alloc = rt.alloc();
    for words in [
        "assess assess",
        "",
        "Assess",
        "batches",
        "help",
        "--help",
        "export all",
        "due",
        "due 2024-02-30",
        "targets 2024-1-01",
        "import",
        "import 0",
        "import 01",
        "import 10000",
        "--book",
    ] {
        assert!(rt; told(&rt, alloc, words, b"").is(2, USAGE), "{words}");
    }
}

#[test]
fn read_faults_end_the_program(rt: HostRuntime) {
    let alloc = rt.alloc();
    let reads = household(&rt, alloc, "", "").len() as u64 / 7 + 1;
    for call in 0..=reads {
        assert!(rt;
            told_at_faults(&rt, alloc, Some(call), None).is(3, ""),
            "read {call}"
        );
    }
    let late = told_at_faults(&rt, alloc, Some(reads + 1), Some(14));
    assert!(rt; late.is(0, PAID), "no fault comes so late");
}

#[test]
fn write_faults_end_the_program(rt: HostRuntime) {
    let alloc = rt.alloc();
    for call in 0..14u64 {
        let told = told_at_faults(&rt, alloc, None, Some(call));
        assert!(rt; told.begins(4, PAID), "write {call}");
        assert!(rt; told.text.len() as u64 == 7 * call, "write {call}");
    }
}
