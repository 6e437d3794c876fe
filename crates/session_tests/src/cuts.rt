//! Sessions that are cut at each byte.

ghost use Rattle.std.specs.Prelude.{◌≡◌, ◌↔◌, []};
ghost use Rattle.book_rows.specs.Book.{Book, book_of};
ghost use Rattle.desk_history.specs.declared.views.View.TheVariants.{Blank};

use crate::sessions::{ASK, CERTIFIED, Given, SEEN, interim, served};
use book_rows::Tables;
use desk_history::{NewHistory, new_history};
use http_front::SessionEnd;
use keeper_core::PlannedKeeper;
use sample_desks::{acts_kept, begun_tables, desk};
use sample_office::written;
use shared_desk::{Naming, Pass, SharedDesk};
use std::alloc::Global;
use std::marker::Brand;
use std::process::Abort;
use std::sync::Wait;

/// The first so many bytes, or all.
fn first(bytes: &[u8], count: usize) -> &[u8] {
    bytes.get(..count).unwrap_or(bytes)
}

/// What the office of four acts says to its fifth, and then to a question.
fn responses(rt: &impl Abort, alloc: Global) -> (Vec<u8>, Vec<u8>) {
    let made = format!(in alloc; "HTTP/1.1 201 Created\r\n{CERTIFIED}").expect(rt, "memory");
    let seen = format!(in alloc; "HTTP/1.1 200 OK\r\n{SEEN}").expect(rt, "memory");
    let first = written(alloc, &made).expect(rt, "memory");
    let second = written(alloc, &seen).expect(rt, "memory");
    (first.into_bytes(), second.into_bytes())
}

// Of an act whose bytes end before it is whole nothing is said, and nothing is done.
fn cut_acts<B: Naming, R: Abort + Wait>(
    rt: &R,
    alloc: Global,
    desk: &SharedDesk<PlannedKeeper, B>,
    pass: &mut Pass<B>,
    act: &[u8],
) {
    for count in 0..act.len() {
        let given = Given {
            bytes: first(act, count),
            unread: None,
            unwritten: None,
        };
        let end = match count {
            0 => SessionEnd::Ended,
            _ => SessionEnd::Cut,
        };
        let told = served(rt, alloc, desk, pass, &given);
        assert!(rt; told.is(end, b""), "cut after {count}");
        assert!(rt; pass.seen() == 4, "cut after {count}");
    }
}

// What is written before a write fails is the beginning of the responses. The act is done the first time, and once.
fn failed_writes<B: Naming, R: Abort + Wait>(
    rt: &R,
    alloc: Global,
    desk: &SharedDesk<PlannedKeeper, B>,
    pass: &mut Pass<B>,
    bytes: &[u8],
    wanted: &[u8],
) {
    for count in 0..wanted.len() {
        let given = Given {
            bytes,
            unread: None,
            unwritten: Some(count as u64),
        };
        let told = served(rt, alloc, desk, pass, &given);
        assert!(rt;
            told.is(SessionEnd::WriteFault, first(wanted, count)),
            "write {count}"
        );
        assert!(rt; pass.seen() == 5, "write {count}");
    }
}

// What is written before a read fails is the responses to the messages that were whole by then.
fn failed_reads<B: Naming, R: Abort + Wait>(
    rt: &R,
    alloc: Global,
    desk: &SharedDesk<PlannedKeeper, B>,
    pass: &mut Pass<B>,
    messages: (&[u8], &[u8]),
    replies: (&[u8], &[u8]),
) {
    let bytes = [messages.0, messages.1].concat(alloc).expect(rt, "memory");
    let wanted = [replies.0, replies.1].concat(alloc).expect(rt, "memory");
    for count in 0..=bytes.len() {
        let given = Given {
            bytes: &bytes,
            unread: Some(count as u64),
            unwritten: None,
        };
        let whole = if count < messages.0.len() {
            0
        } else if count < bytes.len() {
            replies.0.len()
        } else {
            wanted.len()
        };
        let told = served(rt, alloc, desk, pass, &given);
        assert!(rt;
            told.is(SessionEnd::ReadFault, first(&wanted, whole)),
            "read {count}"
        );
    }
}

// At one desk, byte by byte.
fn at_each_byte<B: Naming, R: Abort + Wait>(
    rt: &R,
    alloc: Global,
    history: NewHistory,
    tables: Tables,
)
    requires table { (history.table.shared.table_id ≡ B.table) × (history.book.table_id ≡ B.table) × (B.table.words ≡ 1) }
    requires blank { history.book.me ≡ (Blank, []) }
    requires told { (book : Book) → B.told book ↔ (book ≡ book_of tables) }
    requires sound { B.sound → ⊥ }
{
    let keeper = PlannedKeeper::with(tables, Vec::new(alloc));
    let mut desk = desk::<B>(alloc, history, keeper).expect(rt, "a desk");
    let mut pass = desk.pass().expect(rt, "a pass");
    faults_of(rt, alloc, desk.shared(), &mut pass);
    assert!(rt; acts_kept(desk.finish(pass)) == 5);
}

fn faults_of<B: Naming, R: Abort + Wait>(
    rt: &R,
    alloc: Global,
    desk: &SharedDesk<PlannedKeeper, B>,
    pass: &mut Pass<B>,
) {
    let act = interim(rt, alloc);
    let (made, seen) = responses(rt, alloc);
    cut_acts(rt, alloc, desk, pass, act.as_bytes());
    failed_writes(rt, alloc, desk, pass, act.as_bytes(), &made);
    let messages = (act.as_bytes(), ASK.as_bytes());
    failed_reads(rt, alloc, desk, pass, messages, (&made, &seen));
}

#[test]
fn sessions_are_cut_at_each_byte(rt: HostRuntime) {
    let alloc = rt.alloc();
    let history = new_history(alloc).expect(&rt, "memory");
    let tables = begun_tables::<Brand, HostRuntime>(&rt, alloc, history).expect(&rt, "tables");
    let history = new_history(alloc).expect(&rt, "memory");
    at_each_byte::<Brand, HostRuntime>(&rt, alloc, history, tables);
}
