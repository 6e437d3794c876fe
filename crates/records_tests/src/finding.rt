//! Rows and acts that are found.

use book_rows::ActRow;
use book_search::{act_key, act_of_request, lines_of_act, record_of_act};
use plain_data::SharedText;
use record_history::Kind;
use row_index::RowIndex;
use sample_office::{act_row, body, day, line, record};
use std::alloc::Global;
use std::process::Abort;

// The acts 2 and 5 closed, with two lines and one.
const LINES_OF: [(u32, usize); 6] = [(0, 0), (1, 0), (2, 2), (3, 0), (5, 1), (6, 0)];

#[test]
fn finds_the_lines_of_an_act(rt: HostRuntime) {
    let lines = [line(2, 1), line(2, 2), line(5, 1)];
    for (n, count) in &LINES_OF {
        let found = lines_of_act(&lines, *n);
        assert!(rt; found.len() == *count, "act {n}");
        assert!(rt; found.iter().all(|line| line.act == *n), "act {n}");
    }
}

// The acts 1, 4 and 9 made records.
const RECORD_OF: [(u32, Option<u32>); 6] = [
    (0, None),
    (1, Some(1)),
    (2, None),
    (4, Some(4)),
    (9, Some(9)),
    (10, None),
];

#[test]
fn finds_the_record_of_an_act(rt: HostRuntime) {
    let from = day("2024-01-31");
    let records = [
        record(1, 1, 1, Kind::MI, from),
        record(4, 1, 4, Kind::MI, from),
        record(9, 1, 9, Kind::MI, from),
    ];
    for (n, made) in &RECORD_OF {
        let found = record_of_act(&records, *n);
        assert!(rt; found.map(|made| made.household) == *made, "act {n}");
    }
}

fn body_of(rt: &impl Abort, alloc: Global, words: &str) -> SharedText {
    body(alloc, words).expect(rt, "memory")
}

/// The clerk, the request, and the act's number.
type RequestCase = (u32, u32, Option<u32>);

// Two clerks have the number 50.
const REQUESTS: [RequestCase; 5] = [
    (1, 50, Some(1)),
    (2, 50, Some(2)),
    (1, 7, Some(3)),
    (2, 7, None),
    (3, 50, None),
];

#[test]
fn finds_the_act_of_a_request(rt: HostRuntime) {
    let alloc = rt.alloc();
    let acts = [
        act_row(1, 1, 50, body_of(&rt, alloc, "{}")),
        act_row(2, 2, 50, body_of(&rt, alloc, "[]")),
        act_row(3, 1, 7, body_of(&rt, alloc, "{}")),
    ];
    let mut index = RowIndex::new(alloc);
    index.reserve().expect(&rt, "memory");
    index.insert(act_key(1, 50), 0);
    index.reserve().expect(&rt, "memory");
    index.insert(act_key(2, 50), 1);
    index.reserve().expect(&rt, "memory");
    index.insert(act_key(1, 7), 2);
    for (clerk, request, n) in &REQUESTS {
        let (clerk, request) = (*clerk, *request);
        let found = act_of_request(&acts, &index, clerk, request);
        assert!(rt; number_of(found) == *n, "{clerk} {request}");
    }
}

fn number_of(found: Option<&ActRow>) -> Option<u32> {
    match found {
        Some(act) => Some(act.n),
        None => None,
    }
}
