//! Tables of a book.

use book_rows::{Batch, Tables, is_name, same_act, same_line};
use plain_data::Listed;
use sample_office::{CLOSE_JANUARY, act_row, body, line};
use std::alloc::Global;
use std::process::Abort;

fn batch(rt: &impl Abort, alloc: Global) -> Batch {
    let body = body(alloc, CLOSE_JANUARY).expect(rt, "memory");
    let lines = [line(1, 1), line(1, 2)].to_vec(alloc).expect(rt, "memory");
    Batch {
        act: act_row(1, 7, 41, body),
        made: None,
        lines: Listed::new(lines),
    }
}

#[test]
fn appends_what_a_batch_says(rt: HostRuntime) {
    let alloc = rt.alloc();
    let mut tables = Tables::new(alloc);
    let batch = batch(&rt, alloc);
    let other = batch.try_clone(alloc).expect(&rt, "memory");
    tables.reserve(&other).expect(&rt, "memory");
    tables.append(other);
    has_rows_of(&rt, &tables, &batch);
}

fn has_rows_of(rt: &impl Abort, tables: &Tables, batch: &Batch) {
    assert!(rt; tables.acts.len() == 1);
    assert!(rt; tables.records.len() == 0);
    assert!(rt; tables.lines.len() == 2);
    assert!(rt; same_act(&tables.acts[0], &batch.act));
    assert!(rt; same_line(&tables.lines[1], &line(1, 2)));
    assert!(rt; !same_line(&tables.lines[1], &line(1, 1)));
}

const NAMES: [(&str, usize, bool); 11] = [
    ("A-101", 10, true),
    ("~", 1, true),
    ("a b", 3, true),
    ("", 10, false),
    // One byte too many, and a space at either end
    ("abcd", 3, false),
    (" a", 10, false),
    ("a ", 10, false),
    (" ", 10, false),
    // The bytes beside the printable ones
    ("a\u{1f}b", 10, false),
    ("a\u{7f}b", 10, false),
    ("\u{c4}b", 10, false),
];

#[test]
fn names_are_printable_and_trimmed(rt: HostRuntime) {
    for (name, most, is) in &NAMES {
        assert!(rt; is_name(name.as_bytes(), *most) == *is, "{name}");
    }
}
