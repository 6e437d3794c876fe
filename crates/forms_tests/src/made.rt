//! The made office.

use crate::offices::{let_go, office_after};
use batch_command::office_core::Capacity;
use generator::made_lines;
use plain_data::{NoMemory, Text};
use simulation::trial;
use std::alloc::Global;
use std::process::Abort;
use std::test::Fail;
use voucher_core::{Line, total};

fn lines_of(rt: &impl Abort, alloc: Global, units: u32) -> Text {
    match made_lines(alloc, units) {
        Ok(text) => text,
        Err(NoMemory) => panic!(rt; "no memory"),
    }
}

/// Whether the line of that number, from 1, is this one.
fn has_line(text: &Text, number: usize, wanted: &str) -> bool {
    let mut lines = text.as_bytes().split(|byte| *byte == b'\n');
    lines.nth(number.saturating_sub(1)) == Some(wanted.as_bytes())
}

#[test]
fn the_lines_of_one_unit(rt: HostRuntime) -> Result<(), Fail> {
    let text = lines_of(&rt, rt.alloc(), 1);
    let opening =
        r#"{"act":{"bounds":[[1,1],[1,2],[2,4],[3,6],[4,8],[5,10]],"early":false,"expected":1,"first":"2024-01","fiscal_month":1,"kind":"plan","method":1,"passbook":200,"ranks":[],"report_days":30},"clerk":1,"request":1,"today":"2024-01-01"}"#;
    assert!(rt; has_line(&text, 1, opening));
    let rents =
        r#"{"act":{"contract_rent":700,"from":"2024-01-01","group":1,"kind":"rents","utility":60},"clerk":1,"request":3,"today":"2024-01-01"}"#;
    assert!(rt; has_line(&text, 3, rents));
    let unit =
        r#"{"act":{"accessible":false,"bedrooms":1,"group":1,"kind":"unit","name":"U001"},"clerk":1,"request":4,"today":"2024-01-01"}"#;
    assert!(rt; has_line(&text, 4, unit));
    let apply =
        r#"{"act":{"accessible":false,"annual":6040,"kind":"apply","name":"H001","persons":1,"preferences":[],"size":1},"clerk":1,"request":5,"today":"2024-01-01"}"#;
    assert!(rt; has_line(&text, 5, apply));
    let move_out =
        r#"{"act":{"household":1,"kind":"move_out","last":"2025-10-15","seen":3},"clerk":1,"request":32,"today":"2025-11-01"}"#;
    assert!(rt; has_line(&text, 32, move_out));
    let last =
        r#"{"act":{"kind":"close","month":"2025-12"},"clerk":1,"request":34,"today":"2025-12-01"}"#;
    assert!(rt; has_line(&text, 34, last));
    assert!(rt; has_line(&text, 35, ""));
    Ok(())
}

/// The lines for their own month, or the others.
fn total_of(alloc: Global, lines: &[Line], own: bool) -> Option<i64> {
    let mut chosen = Vec::new(alloc);
    for line in lines.iter().take(1_000) {
        if (line.month == line.for_month) == own {
            chosen.push(*line).ok()?;
        }
    }
    if chosen.len() <= 1_000 {
        Some(total(&chosen))
    } else {
        None
    }
}

#[test]
fn each_line_of_one_unit_is_accepted(rt: HostRuntime) -> Result<(), Fail> {
    let alloc = rt.alloc();
    let text = lines_of(&rt, alloc, 1);
    let office = office_after(&rt, alloc, text.into_bytes(), 34)?;
    let lines = &office.tables().lines;
    let count = lines.len();
    let requested = total_of(alloc, lines, true);
    let adjustments = total_of(alloc, lines, false);
    let_go(office);
    assert!(rt; (count, requested, adjustments) == (23, Some(13_478), Some(-325)));
    Ok(())
}

#[test]
fn one_unit_tried(rt: HostRuntime) -> Result<(), Fail> {
    let capacity = Capacity {
        acts: 34,
        lines: 23,
    };
    match trial(rt.alloc(), capacity, 1) {
        Ok(text) => {
            let wanted = b"acts 34\nlines 23\nrequested 13478\nadjustments -325\ntotal 13153\n";
            assert!(&rt; text.as_bytes() == wanted.as_slice(), "{text:?}");
        }
        Err(NoMemory) => panic!(&rt; "no memory"),
    }
    Ok(())
}
