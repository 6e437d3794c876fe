//! Six acts at a desk on a file, and what they leave.

ghost use Rattle.std.specs.Prelude.{◌≡◌, ◌≤◌, true, []};
ghost use Rattle.book_rows.specs.Book.{Book};
ghost use Rattle.office_core.specs.Below.office_step.Step.{is_fit_call};
ghost use Rattle.desk_history.specs.declared.views.View.TheVariants.{Blank};

use book_rows::Tables;
use days_core::Day;
use desk_history::{NewHistory, new_history};
use json_front::call_of_bytes;
use keeper_core::{Keeper, PlannedKeeper};
use keeper_sqlite::SqliteKeeper;
use office_core::office_answers::Reply;
use office_core::{Call, Capacity};
use office_io::FixedClock;
use sample_office::{CLOSE_JANUARY, PLAN, RENTS, START, UNIT, office_day, written};
use shared_desk::{Desk, DeskFault, Finished, Naming, Pass, SharedDesk, Unopened};
use sqlite::{Alter, Connection, Options};
use sqlite_disk::{Disk, Files};
use std::alloc::Global;
use std::marker::Brand;
use std::process::Abort;
use std::sync::Wait;

/// A plan, a unit, its rents, a household, and two closings.
const ACTS: [&str; 6] = [
    PLAN,
    UNIT,
    RENTS,
    START,
    CLOSE_JANUARY,
    "{'kind':'close','month':'2024-02'}",
];

pub fn first_day() -> Day {
    office_day("2024-01-01")
}

pub fn next_day() -> Day {
    office_day("2024-01-02")
}

/// What a pass was told of the first of the six acts, each reply with its point, and the tables that the desk left.
#[derive(Drop)]
pub struct Told {
    pub replies: Vec<(u32, Reply)>,
    pub tables: Tables,
}

impl Told {
    /// Whether the same was told, and the tables are the same.
    pub fn is(&self, other: &Told) -> bool {
        self.replies.as_slice() == other.replies.as_slice() && self.has_left(other)
    }

    /// Whether the tables are the same.
    pub fn has_left(&self, other: &Told) -> bool {
        self.tables.acts.as_slice() == other.tables.acts.as_slice()
            && self.tables.records.as_slice() == other.tables.records.as_slice()
            && self.tables.lines.as_slice() == other.tables.lines.as_slice()
    }
}

/// Clerk 1's call for an act, by a request.
fn call_of(rt: &impl Abort, alloc: Global, request: u32, act: &str) -> Call
    ensures { is_fit_call result ≡ true }
{
    let text = format!(in alloc; "{{'act':{act},'clerk':1,'request':{request}}}");
    let body = written(alloc, &text.expect(rt, "memory")).expect(rt, "memory");
    match call_of_bytes(alloc, body.as_bytes()) {
        Ok(call) => call,
        Err(fault) => panic!(rt; "{fault:?}: {body}"),
    }
}

/// Has a pass call for the first of the six acts on a day.
fn replies_to<K: Keeper + Drop, B: Naming, R: Abort + Wait>(
    rt: &R,
    alloc: Global,
    desk: &SharedDesk<K, B>,
    pass: &mut Pass<B>,
    today: Day,
    acts: u32,
) -> Vec<(u32, Reply)>
    requires { acts ≤ 6 }
{
    let clock = FixedClock::new(today);
    let mut replies = Vec::new(alloc);
    for before in 0..acts {
        let call = call_of(rt, alloc, before + 1, ACTS[before as usize]);
        let outcome = desk.call(rt, alloc, pass, call, &clock);
        replies
            .push((outcome.point, outcome.reply))
            .expect(rt, "memory");
    }
    replies
}

/// What is told of the first of the six acts on a day at a desk on the keeper's book, and the keeper afterwards. None is a
/// desk that isn't opened, since the keeper failed.
fn worked<K: Keeper + Drop, B: Naming, R: Abort + Wait>(
    rt: &R,
    alloc: Global,
    history: NewHistory,
    keeper: K,
    today: Day,
    acts: u32,
) -> (Option<Told>, K)
    requires acts { acts ≤ 6 }
    requires table { (history.table.shared.table_id ≡ B.table) × (history.book.table_id ≡ B.table) × (B.table.words ≡ 1) }
    requires blank { history.book.me ≡ (Blank, []) }
    requires told { (book : Book) → K.holds keeper book → B.told book }
    requires told_by { (book : Book) → B.told book → K.holds keeper book }
    requires sound { B.sound → ⊥ }
{
    let few = Capacity {
        acts: 10,
        lines: 10,
    };
    match Desk::<K, B>::open(alloc, history, keeper, few) {
        Ok(mut desk) => {
            let mut pass = desk.pass().expect(rt, "a pass");
            let replies = replies_to(rt, alloc, desk.shared(), &mut pass, today, acts);
            let Finished { tables, keeper } = desk.finish(pass);
            (Some(Told { replies, tables }), keeper)
        }
        Err(Unopened { fault, keeper }) => {
            assert!(rt; fault == DeskFault::StoreFault);
            (None, keeper)
        }
    }
}

/// The same on a connection, and its store afterwards. Both this and the next speak of any store or disk, since a check of a
/// file's own has all its parts before it.
fn worked_on<S: Alter + Drop, R: Abort + Wait>(
    rt: &R,
    alloc: Global,
    conn: Connection<S>,
    today: Day,
    acts: u32,
) -> (Option<Told>, S)
    requires { acts ≤ 6 }
{
    let history = new_history(alloc).expect(rt, "memory");
    let keeper = SqliteKeeper::adopt(conn);
    let (told, keeper) = worked::<SqliteKeeper<S>, Brand, R>(
        rt, alloc, history, keeper, today, acts,
    );
    (told, keeper.release().into_store())
}

/// The same over disks, whose file isn't always opened either, and the disks afterwards. The log is copied into the file
/// each time that it has four pages, so that both are written while the acts are done.
pub fn worked_over<D: Disk + Drop, R: Abort + Wait>(
    rt: &R,
    alloc: Global,
    disks: Files<D>,
    today: Day,
    acts: u32,
) -> (Option<Told>, Files<D>)
    requires { acts ≤ 6 }
{
    if !disks.may_be_used() {
        panic!(rt; "a disk whose sync failed");
    }
    let mut options = Options::new(1);
    options.checkpoint_frames = 4;
    match Connection::open_files(alloc, disks, options) {
        Ok(conn) => {
            let (told, store) = worked_on(rt, alloc, conn, today, acts);
            (told, store.close())
        }
        Err((_, left)) => (None, left.into_files()),
    }
}

/// What is told in memory, where nothing stops: of the first acts, and a day later, at another desk, of all six.
#[derive(Drop)]
pub struct Wanted {
    pub first: Told,
    pub again: Told,
}

fn wanted_after<R: Abort + Wait>(rt: &R, alloc: Global, acts: u32) -> Wanted
    requires { acts ≤ 6 }
{
    let keeper = PlannedKeeper::new(alloc, Vec::new(alloc));
    let new = new_history(alloc).expect(rt, "memory");
    let (first, keeper) = worked::<PlannedKeeper, Brand, R>(
        rt,
        alloc,
        new,
        keeper,
        first_day(),
        acts,
    );
    let new = new_history(alloc).expect(rt, "memory");
    let (again, _) = worked::<PlannedKeeper, Brand, R>(rt, alloc, new, keeper, next_day(), 6);
    Wanted {
        first: first.expect(rt, "a desk"),
        again: again.expect(rt, "a desk"),
    }
}

/// The same by how many the first acts are.
pub fn all_wanted<R: Abort + Wait>(rt: &R, alloc: Global) -> Vec<Wanted> {
    let mut wanted = Vec::new(alloc);
    for acts in 0..=6 {
        wanted
            .push(wanted_after(rt, alloc, acts))
            .expect(rt, "memory");
    }
    wanted
}
