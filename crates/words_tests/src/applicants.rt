//! Applicants of CSV.

use applicant_rows::{ImportFault, ImportRow, applicants_of_csv};
use book_rows::{ApplyAct, Command};
use plain_data::{Listed, Text};
use std::alloc::Global;
use std::process::Abort;

const HEADER: &str = "request,name,size,persons,accessible,preferences,annual\n";

/// The rows of the text for clerk 7, or None where its header is another.
fn rows(rt: &impl Abort, alloc: Global, text: &[u8]) -> Option<Vec<ImportRow>> {
    match applicants_of_csv(alloc, text, 7) {
        Ok(rows) => Some(rows),
        Err(ImportFault::BadHeader) => None,
        Err(ImportFault::NoMemory) => panic!(rt; "no memory"),
    }
}

/// The rows that stand under the header.
fn under(rt: &impl Abort, alloc: Global, lines: &[u8]) -> Vec<ImportRow> {
    let mut text = HEADER.as_bytes().to_vec(alloc).expect(rt, "memory");
    text.extend_from_slice(lines).expect(rt, "memory");
    rows(rt, alloc, &text).expect(rt, "a header")
}

/// For each row the clerk's request, or 0 for a row of another form.
fn requests(rt: &impl Abort, alloc: Global, rows: &[ImportRow]) -> Vec<u32> {
    let mut requests = Vec::new(alloc);
    for row in rows {
        let request = match row {
            ImportRow::Call(call) => call.request,
            ImportRow::Bad => 0,
        };
        requests.push(request).expect(rt, "memory");
    }
    requests
}

fn expect(rt: &impl Abort, alloc: Global, lines: &[u8], wanted: &[u32]) {
    let rows = under(rt, alloc, lines);
    let found = requests(rt, alloc, &rows);
    assert!(rt; found.as_slice() == wanted, "{found:?}");
}

/// The row puts that applicant on the list, for clerk 7 by that request.
fn puts(row: &ImportRow, request: u32, wanted: &ApplyAct) -> bool {
    match row {
        ImportRow::Call(call) => match &call.command {
            Command::Apply(apply) => call.clerk == 7 && call.request == request && apply == wanted,
            _ => false,
        },
        ImportRow::Bad => false,
    }
}

fn text(rt: &impl Abort, alloc: Global, words: &str) -> Text {
    Text::new(words.as_bytes().to_vec(alloc).expect(rt, "memory"))
}

#[test]
fn three_rows_one_of_another_form(rt: HostRuntime) {
    let alloc = rt.alloc();
    let lines = b"1,Ben Ochoa,1,1,no,,9600\n2,Cy Long,2,2,yes,1;2,14000\nx,Bad Row,1,1,no,,1\n";
    let rows = under(&rt, alloc, lines);
    assert_eq!(rt; rows.len(), 3);
    let ben = ApplyAct {
        name: text(&rt, alloc, "Ben Ochoa"),
        size: 1,
        persons: 1,
        preferences: Listed::new(Vec::new(alloc)),
        accessible: false,
        annual: 9600,
    };
    let cy = ApplyAct {
        name: text(&rt, alloc, "Cy Long"),
        size: 2,
        persons: 2,
        preferences: Listed::new([1, 2].to_vec(alloc).expect(&rt, "memory")),
        accessible: true,
        annual: 14_000,
    };
    assert!(rt; puts(&rows[0], 1, &ben) && puts(&rows[1], 2, &cy));
    let found = requests(&rt, alloc, &rows);
    assert!(rt; found.as_slice() == [1u32, 2, 0].as_slice());
}

#[test]
fn fields_in_and_out_of_range(rt: HostRuntime) {
    let cases: [(&[u8], u32); 24] = [
        (b"4294967295,A,1,1,no,,0", 4_294_967_295),
        (b"4294967296,A,1,1,no,,0", 0),
        (b"0,A,1,1,no,,0", 0),
        (b"007,A,01,001,no,,000", 7),
        (b"+7,A,1,1,no,,0", 0),
        (b"7,,1,1,no,,0", 0),
        (b"7, A,1,1,no,,0", 0),
        (b"7,A,0,1,no,,0", 0),
        (b"7,A,12,16,no,,0", 7),
        (b"7,A,13,16,no,,0", 0),
        (b"7,A,2,1,no,,0", 0),
        (b"7,A,1,17,no,,0", 0),
        (b"7,A,1,1,No,,0", 0),
        (b"7,A,1,1,,,0", 0),
        (b"7,A,1,1,yes,16,0", 7),
        (b"7,A,1,1,yes,17,0", 0),
        (b"7,A,1,1,yes,1;;2,0", 0),
        (b"7,A,1,1,yes,1;,0", 0),
        (b"7,A,1,1,yes,1;1;1;1;1;1;1;1;1;1;1;1;1;1;1;1,0", 7),
        (b"7,A,1,1,yes,1;1;1;1;1;1;1;1;1;1;1;1;1;1;1;1;1,0", 0),
        (b"7,A,1,1,yes,,9999999", 7),
        (b"7,A,1,1,yes,,10000000", 0),
        (b"7,A,1,1,yes,", 0),
        (b"7,A,1,1,yes,,0,", 0),
    ];
    for (line, request) in cases {
        expect(&rt, rt.alloc(), line, &[request]);
    }
}

#[test]
fn rows_end_and_are_quoted_as_csv_says(rt: HostRuntime) {
    let cases: [(&[u8], &[u32]); 11] = [
        (b"", &[]),
        (b"\n\r\n\n", &[]),
        (b"1,A,1,1,no,,0\r\n\r\n2,B,1,1,no,,0", &[1, 2]),
        (b"1,A,1,1,no,,0\r2,B,1,1,no,,0\r", &[1, 2]),
        (b"1,\"A, B\",1,1,no,,0\n", &[1]),
        (b"\"1\",\"A\",\"1\",\"1\",\"no\",\"\",\"0\"\n", &[1]),
        (b"1,A \"B\",1,1,no,,0\n", &[1]),
        (b"1,A,1,1,no,,0\n\"", &[1, 0]),
        (b"1,A,1,1,no,,\"0\n2,B,1,1,no,,0\n", &[0]),
        (b"1,\xff,1,1,no,,0\n2,B,1,1,no,,0\n", &[0, 2]),
        (b" \n2,B,1,1,no,,0\n", &[0, 2]),
    ];
    for (lines, wanted) in cases {
        expect(&rt, rt.alloc(), lines, wanted);
    }
}

#[test]
fn another_header_is_told(rt: HostRuntime) {
    let others: [&[u8]; 5] = [
        b"",
        b"\n\n",
        b"1,A,1,1,no,,0\n",
        b"request,name,size,persons,accessible,preferences\n",
        b"Request,name,size,persons,accessible,preferences,annual\n",
    ];
    for text in others {
        assert!(rt; rows(&rt, rt.alloc(), text).is_none());
    }
    let quoted = b"\n\"request\",name,size,persons,accessible,preferences,annual";
    let found = rows(&rt, rt.alloc(), quoted).expect(&rt, "a header");
    assert!(rt; found.is_empty());
}
