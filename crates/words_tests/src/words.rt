//! The words of each command.

use command_words::{Subcommand, subcommand_in};
use days_core::{Day, Month, day_of_text, month_of_text};
use plain_data::NoMemory;
use std::alloc::Global;
use std::process::Abort;

/// The words of a line, which single spaces part.
pub fn split(rt: &impl Abort, alloc: Global, line: &str) -> Vec<String> {
    let mut words = Vec::new(alloc);
    for word in line.split(' ') {
        let word = String::from_str(alloc, word).expect(rt, "memory");
        words.push(word).expect(rt, "memory");
    }
    words
}

fn asked(rt: &impl Abort, alloc: Global, line: &str) -> Option<Subcommand> {
    let words = split(rt, alloc, line);
    match subcommand_in(alloc, &words) {
        Ok(found) => found,
        Err(NoMemory) => panic!(rt; "no memory"),
    }
}

fn day(rt: &impl Abort, text: &str) -> Day {
    day_of_text(text).expect(rt, "a day")
}

fn month(rt: &impl Abort, text: &str) -> Month {
    month_of_text(text).expect(rt, "a month")
}

#[test]
fn each_command_has_its_words(rt: HostRuntime) {
    let rows = [
        ("assess", Subcommand::Assess),
        ("batch", Subcommand::Batch),
        ("export", Subcommand::Export),
        (
            "voucher 2024-06",
            Subcommand::Voucher(month(&rt, "2024-06")),
        ),
        ("import 1", Subcommand::Import(1)),
        ("import 9999", Subcommand::Import(9999)),
        ("due 2024-09-03", Subcommand::Due(day(&rt, "2024-09-03"))),
        (
            "targets 2025-01-01",
            Subcommand::Targets(day(&rt, "2025-01-01")),
        ),
        ("make 1", Subcommand::Make(1)),
        ("make 300", Subcommand::Make(300)),
        ("trial 60", Subcommand::Trial(60)),
    ];
    for (line, wanted) in rows {
        assert!(rt; asked(&rt, rt.alloc(), line) == Some(wanted), "{line}");
    }
}

#[test]
fn other_words_ask_nothing(rt: HostRuntime) {
    let lines = [
        "",
        "assess assess",
        "assess ",
        " assess",
        "Assess",
        "asses",
        "assess --",
        "help",
        "help assess",
        "--help",
        "--version",
        "-V",
        "-",
        "voucher",
        "voucher 2024-13",
        "voucher 2024-6",
        "voucher --x",
        "voucher 2024-06 2024-07",
        "export 2024-06",
        "import",
        "import 0",
        "import 01",
        "import 10000",
        "import +5",
        "import 1x",
        "import 18446744073709551617",
        "due 2023-02-29",
        "due 2024-09",
        "targets",
        "make 0",
        "make 301",
        "trial 301",
        "trial 01",
        "trial 1 1",
        "serve 8080 1 1",
    ];
    for line in lines {
        assert!(rt; asked(&rt, rt.alloc(), line) == None, "{line}");
    }
    let none = Vec::new(rt.alloc());
    assert!(rt; subcommand_in(rt.alloc(), &none) == Ok(None));
}
