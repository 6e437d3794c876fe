//! A session whose clock turns.

ghost use Rattle.std.specs.Prelude.{◌≡◌, ◌↔◌, []};
ghost use Rattle.book_rows.specs.Book.{Book, empty_book};
ghost use Rattle.desk_history.specs.declared.views.View.TheVariants.{Blank};

use crate::parted::{Event, served_in_parts};
use days_core::Day;
use desk_history::{NewHistory, new_history};
use http_front::SessionEnd;
use keeper_core::PlannedKeeper;
use office_io::Clock;
use sample_desks::{acts_kept, desk};
use sample_office::{PLAN, UNIT, day, post, written};
use shared_desk::{Naming, Pass, SharedDesk};
use std::alloc::Global;
use std::cell::Cell;
use std::marker::Brand;
use std::process::Abort;
use std::sync::Wait;

/// Shows a day until it is turned to another.
#[derive(Drop)]
struct TurnedClock {
    shown: Cell<Day>,
}

impl Clock for TurnedClock {
    ghost use Rattle.std.specs.Prelude.{⊤};

    ghost may_show = { λ _ _. ⊤ };

    fn today(&self) -> Day {
        self.shown.get()
    }
}

/// The clock is turned to the next day.
#[derive(Drop)]
struct Midnight<'a> {
    clock: &'a TurnedClock,
    next: Day,
}

impl<'a> Event for Midnight<'a> {
    fn happen(&mut self) {
        self.clock.shown.set(self.next);
    }
}

/// The responses to an act before midnight, to one after it, and to the first once more, with ' for ".
const RESPONSES: &str =
    "HTTP/1.1 201 Created\r\nbook: 1\r\ncontent-length: 40\r\ncontent-type: application/json\r\n\r\n\
    {'act':1,'day':'2024-01-31','made':null}\
    HTTP/1.1 201 Created\r\nbook: 2\r\ncontent-length: 46\r\ncontent-type: application/json\r\n\r\n\
    {'act':2,'day':'2024-02-01','made':{'unit':1}}\
    HTTP/1.1 201 Created\r\nbook: 2\r\ncontent-length: 40\r\ncontent-type: application/json\r\n\r\n\
    {'act':1,'day':'2024-01-31','made':null}";

// One session: the clock turns between its first message and its second.
fn over_midnight<B: Naming, R: Abort + Wait>(
    rt: &R,
    alloc: Global,
    desk: &SharedDesk<PlannedKeeper, B>,
    pass: &mut Pass<B>,
) {
    let clock = TurnedClock {
        shown: Cell::new(day("2024-01-31")),
    };
    let midnight = Midnight {
        clock: &clock,
        next: day("2024-02-01"),
    };
    let plan = post(alloc, 1, PLAN).expect(rt, "memory");
    let mut rest = post(alloc, 2, UNIT).expect(rt, "memory");
    rest.push_str(&plan).expect(rt, "memory");
    let told = served_in_parts(rt, alloc, desk, pass, (&plan, &rest), midnight, &clock);
    let wanted = written(alloc, RESPONSES).expect(rt, "memory");
    assert!(rt; told.is(SessionEnd::Ended, wanted.as_bytes()));
}

fn at_a_new_desk<B: Naming, R: Abort + Wait>(rt: &R, alloc: Global, history: NewHistory)
    requires table { (history.table.shared.table_id ≡ B.table) × (history.book.table_id ≡ B.table) × (B.table.words ≡ 1) }
    requires blank { history.book.me ≡ (Blank, []) }
    requires told { (book : Book) → B.told book ↔ (book ≡ empty_book) }
    requires sound { B.sound → ⊥ }
{
    let keeper = PlannedKeeper::new(alloc, Vec::new(alloc));
    let mut desk = desk::<B>(alloc, history, keeper).expect(rt, "a desk");
    let mut pass = desk.pass().expect(rt, "a pass");
    over_midnight(rt, alloc, desk.shared(), &mut pass);
    assert!(rt; acts_kept(desk.finish(pass)) == 2);
}

// Each act has the day on which it came, and a repeat keeps the day of its first reply.
#[test]
fn a_clock_turns_in_a_session(rt: HostRuntime) {
    let alloc = rt.alloc();
    let history = new_history(alloc).expect(&rt, "memory");
    at_a_new_desk::<Brand, HostRuntime>(&rt, alloc, history);
}
