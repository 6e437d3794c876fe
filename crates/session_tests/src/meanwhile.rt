//! A question after another session's act.

ghost use Rattle.std.specs.Prelude.{◌≡◌, ◌↔◌, []};
ghost use Rattle.book_rows.specs.Book.{Book, book_of};
ghost use Rattle.desk_history.specs.declared.views.View.TheVariants.{Blank};

use crate::parted::{Event, served_in_parts};
use crate::sessions::{ASK, CERTIFIED, SEEN, interim, writes};
use book_rows::Tables;
use desk_history::{NewHistory, new_history};
use http_front::SessionEnd;
use keeper_core::PlannedKeeper;
use office_io::FixedClock;
use sample_desks::{acts_kept, begun_tables, desk};
use sample_office::{day, written};
use shared_desk::{Naming, Pass, SharedDesk};
use std::alloc::Global;
use std::marker::Brand;
use std::process::Abort;
use std::sync::Wait;

/// Another pass posts an act.
#[derive(Drop)]
struct Posting<'a, B: Naming, R: Abort + Wait> {
    rt: &'a R,
    alloc: Global,
    desk: &'a SharedDesk<PlannedKeeper, B>,
    pass: Pass<B>,
}

impl<'a, B: Naming, R: Abort + Wait> Event for Posting<'a, B, R> {
    fn happen(&mut self) {
        let act = interim(self.rt, self.alloc);
        assert!(self.rt;
            writes(
                self.rt,
                self.alloc,
                self.desk,
                &mut self.pass,
                &act,
                CERTIFIED
            )
        );
    }
}

/// The response to the question before that act, with ' for ".
const BEFORE: &str =
    "HTTP/1.1 200 OK\r\nbook: 4\r\ncontent-length: 55\r\ncontent-type: application/json\r\n\r\n\
    {'household':1,'live':[1],'name':'Ada Reed','newest':1}";

// One session asks, another one's act is booked, and the first asks again.
fn ask_twice<B: Naming, R: Abort + Wait>(
    rt: &R,
    alloc: Global,
    desk: &SharedDesk<PlannedKeeper, B>,
    first: &mut Pass<B>,
    second: Pass<B>,
) {
    let posting = Posting {
        rt,
        alloc,
        desk,
        pass: second,
    };
    let clock = FixedClock::new(day("2024-02-01"));
    let told = served_in_parts(rt, alloc, desk, first, (ASK, ASK), posting, &clock);
    let both = format!(in alloc; "{BEFORE}HTTP/1.1 200 OK\r\n{SEEN}").expect(rt, "memory");
    let wanted = written(alloc, &both).expect(rt, "memory");
    assert!(rt; told.is(SessionEnd::Ended, wanted.as_bytes()));
    assert!(rt; first.seen() == 5);
}

fn at_a_begun_desk<B: Naming, R: Abort + Wait>(
    rt: &R,
    alloc: Global,
    history: NewHistory,
    tables: Tables,
)
    requires table { (history.table.shared.table_id ≡ B.table) × (history.book.table_id ≡ B.table) × (B.table.words ≡ 1) }
    requires blank { history.book.me ≡ (Blank, []) }
    requires told { (book : Book) → B.told book ↔ (book ≡ book_of tables) }
    requires sound { B.sound → ⊥ }
{
    let keeper = PlannedKeeper::with(tables, Vec::new(alloc));
    let mut desk = desk::<B>(alloc, history, keeper).expect(rt, "a desk");
    let mut first = desk.pass().expect(rt, "a pass");
    let second = desk.pass().expect(rt, "a pass");
    ask_twice(rt, alloc, desk.shared(), &mut first, second);
    assert!(rt; acts_kept(desk.finish(first)) == 5);
}

// A session that only asks sees what another one did since, at a higher point.
#[test]
fn a_question_sees_an_act_of_another_session(rt: HostRuntime) {
    let alloc = rt.alloc();
    let history = new_history(alloc).expect(&rt, "memory");
    let tables = begun_tables::<Brand, HostRuntime>(&rt, alloc, history).expect(&rt, "tables");
    let history = new_history(alloc).expect(&rt, "memory");
    at_a_begun_desk::<Brand, HostRuntime>(&rt, alloc, history, tables);
}
