//! A server, from opening its book to its exit status.

ghost use Rattle.std.specs.Prelude.{◌≡◌, ◌<◌, ◌≤◌, [], None, IfOk, IfSome, string_bytes};
ghost use Rattle.std.specs.Io.KnownBytes.{Keeps as KeepsBytes};
ghost use Rattle.book_rows.specs.Book.{Book, book_of as rows_of};
ghost use Rattle.desk_history.specs.declared.views.View.TheVariants.{Blank};
ghost use Rattle.keeper_core.specs.Keeping.{LeavesTold};
ghost use Rattle.office_io.specs.Outside.{Faulted};
ghost use Rattle.program_answers.specs.{Keeping.OutlivesStops, Keeping.StillTells, Opening.door, Opening.largest};
ghost use Rattle.shared_desk.specs.History.{capacity_of};
ghost use Rattle.office_server.specs.declared.desk.ServeEnd.TheVariants as ends;
ghost use Rattle.office_server.specs.Links.{MayLeaveNow};
ghost use Rattle.office_server.specs.Server.{ComesOfLinks, DeskServed, GivesAllBack, IsWritten, NamesFault, Writes, book_line};
ghost use Rattle.office_io.specs.declared.status.ExitStatus.TheVariants as exit;

use crate::desk::{ServeEnd, ServedDesk, serve_desk};
use book_rows::Tables;
use desk_history::{NewHistory, new_history};
use http_front::shared_desk::{Desk, Naming, Unopened};
use keeper_core::Keeper;
use office_io::{Clock, ExitStatus, Sink};
use office_links::Listener;
use program_answers::{LARGEST, finish, tell_unopened};
use std::alloc::{AllocError, Global};
use std::marker::Brand;
use std::sync::Wait;
use std::thread::Threads;

/// What a server hands back with every status.
#[derive(Drop)]
pub struct Served<K, L> {
    pub status: ExitStatus,
    pub keeper: K,
    pub listener: L,
}

/// Opens a desk on the keeper's book, serves the links of the listener by so many workers, from 1 to 32, the caller among
/// them, writes how many acts the book then has, and gives the status. However a session ends, its worker serves the next
/// link. After an accept that failed none is accepted. A worker that can't be started leaves its links to the others.
///
/// `Done`: no link is left, and the line is written. `ReadFault`: an accept failed. `StoreFault`: the keeper failed when the
/// book was opened.
pub fn run_serve<
    R: Threads + Wait + Sync,
    K: Keeper + Drop + Send,
    L: Listener + Send,
    W: Sink,
    C: Clock + Sync,
>(
    rt: &R,
    alloc: Global,
    workers: u32,
    listener: L,
    sink: &mut W,
    clock: &C,
    keeper: K,
) -> Served<K, L>
where
    L::In: Send,
    L::Out: Send,
    requires workers { (1 ≤ workers) × (workers ≤ 32) }

    // The links are served at a desk on the book that the keeper told, and each that is given back is a session's, by a
    // worker's pass; or the book isn't opened, and the listener is as it was. A further act that a stop may leave is one that a
    // session of one of the workers tried; of one worker, one of its own session's.
    ensures comes { ComesOfLinks (C.may_show clock.now) workers listener result.listener L.left L.links
        (K.holds keeper) (K.holds result.keeper) (K.bad result.keeper)
        (MayLeaveNow (K.holds keeper) (K.leaves keeper) (K.tells_crash keeper) (K.holds result.keeper) (K.leaves result.keeper) (K.tells_crash result.keeper))
        (door None (W.held sink.old) (L.faults listener) (W.faults sink.old) (K.faults keeper))
        (door None (W.held sink.new) (L.faults result.listener) (W.faults sink.new) (K.faults result.keeper)) result.status }

    // A keeper that is well tells a book at the end, if it told one.
    ensures tells_on { StillTells (K.holds keeper) (K.is_well result.keeper) (K.holds result.keeper) }

    // What a stop of the machine leaves from then on: the acts that are kept, or these and one more.
    ensures stopped { OutlivesStops (K.holds keeper) (K.leaves keeper) (K.tells_crash keeper)
        (K.holds result.keeper) (K.leaves result.keeper) (K.tells_crash result.keeper) }

    // `Done` in plain facts: no link is left, each that there was is given back if one worker served, and nothing failed
    // but sessions.
    ensures none_left { result.status ≡ exit.Done → L.left result.listener ≡ 0 }
    ensures given_back { workers ≡ 1 → result.status ≡ exit.Done → IfSome (L.links listener) (λ told. GivesAllBack told (L.links result.listener)) }
    ensures written { result.status ≡ exit.Done → IsWritten (K.holds result.keeper) (W.held sink.old) (W.held sink.new) }
    ensures quiet { result.status ≡ exit.Done → (L.faults result.listener ≡ L.faults listener) × (W.faults sink.new ≡ W.faults sink.old) }

    // Every other status has its cause; `NoMemory` comes when the book is opened, for the seats or for the line.
    ensures accept_fault { result.status ≡ exit.ReadFault → (0 < L.left result.listener) × Faulted (L.faults listener) (L.faults result.listener) }
    ensures write_fault { result.status ≡ exit.WriteFault → Faulted (W.faults sink.old) (W.faults sink.new) }
    ensures store_fault { result.status ≡ exit.StoreFault → (result.listener ≡ listener) × Faulted (K.faults keeper) (K.faults result.keeper) }
    ensures bad_book { result.status ≡ exit.BadBook → (result.listener ≡ listener)
        × NamesFault (K.holds result.keeper) (K.bad result.keeper) (W.held sink.old) (W.held sink.new) }
{
    match new_history(alloc) {
        Ok(history) => {
            serve_on::<R, K, L, W, C, Brand>(
                rt, alloc, history, workers, listener, sink, clock, keeper,
            )
        }
        Err(_) => Served {
            status: ExitStatus::NoMemory,
            keeper,
            listener,
        },
    }
}

/// The same, over a new history whose table is named.
fn serve_on<
    R: Threads + Wait + Sync,
    K: Keeper + Drop + Send,
    L: Listener + Send,
    W: Sink,
    C: Clock + Sync,
    B: Naming + Send,
>(
    rt: &R,
    alloc: Global,
    history: NewHistory,
    workers: u32,
    listener: L,
    sink: &mut W,
    clock: &C,
    keeper: K,
) -> Served<K, L>
where
    L::In: Send,
    L::Out: Send,
    requires workers { (1 ≤ workers) × (workers ≤ 32) }
    requires table { (history.table.shared.table_id ≡ B.table) × (history.book.table_id ≡ B.table) × (B.table.words ≡ 1) }
    requires blank { history.book.me ≡ (Blank, []) }
    requires told { (book : Book) → K.holds keeper book → B.told book }
    requires told_by { (book : Book) → B.told book → K.holds keeper book }
    requires sound { B.sound → K.tells_crash keeper → LeavesTold (K.holds keeper) (K.leaves keeper) }
    requires sound_by { (K.tells_crash keeper → LeavesTold (K.holds keeper) (K.leaves keeper)) → B.sound }
    ensures comes { ComesOfLinks (C.may_show clock.now) workers listener result.listener L.left L.links
        (K.holds keeper) (K.holds result.keeper) (K.bad result.keeper)
        (MayLeaveNow (K.holds keeper) (K.leaves keeper) (K.tells_crash keeper) (K.holds result.keeper) (K.leaves result.keeper) (K.tells_crash result.keeper))
        (door None (W.held sink.old) (L.faults listener) (W.faults sink.old) (K.faults keeper))
        (door None (W.held sink.new) (L.faults result.listener) (W.faults sink.new) (K.faults result.keeper)) result.status }
    ensures tells_on { StillTells (K.holds keeper) (K.is_well result.keeper) (K.holds result.keeper) }
    ensures stopped { OutlivesStops (K.holds keeper) (K.leaves keeper) (K.tells_crash keeper)
        (K.holds result.keeper) (K.leaves result.keeper) (K.tells_crash result.keeper) }
{
    match Desk::<K, B>::open(alloc, history, keeper, LARGEST) {
        Ok(desk) => {
            let ServedDesk {
                finished,
                listener,
                end,
            } = serve_desk(rt, alloc, desk, workers, listener, clock);
            let status = status_of(alloc, &finished.tables, end, sink);
            Served {
                status,
                keeper: finished.keeper,
                listener,
            }
        }
        Err(Unopened { fault, keeper }) => Served {
            status: tell_unopened(alloc, sink, fault),
            keeper,
            listener,
        },
    }
}

/// Tells how the serving ended that left these tables.
fn status_of<W: Sink>(alloc: Global, tables: &Tables, end: ServeEnd, sink: &mut W) -> ExitStatus
    ensures whole { end ≡ ends.Whole → Writes (book_line (rows_of tables.now)) (W.held sink.old) (W.held sink.new) (W.faults sink.old) (W.faults sink.new) result }
    ensures failed { end ≡ ends.AcceptFailed → (result ≡ exit.ReadFault) × KeepsBytes (W.held sink.old) (W.held sink.new) × (W.faults sink.new ≡ W.faults sink.old) }
    ensures unserved { end ≡ ends.Unserved → (result ≡ exit.NoMemory) × KeepsBytes (W.held sink.old) (W.held sink.new) × (W.faults sink.new ≡ W.faults sink.old) }
{
    match end {
        ServeEnd::Whole => write_book(alloc, tables, sink),
        ServeEnd::AcceptFailed => ExitStatus::ReadFault,
        ServeEnd::Unserved => ExitStatus::NoMemory,
    }
}

/// Writes how many acts there are.
fn write_book<W: Sink>(alloc: Global, tables: &Tables, sink: &mut W) -> ExitStatus
    ensures { Writes (book_line (rows_of tables.now)) (W.held sink.old) (W.held sink.new) (W.faults sink.old) (W.faults sink.new) result }
{
    match book_line(alloc, tables) {
        Ok(line) => finish(sink, ExitStatus::Done, line.as_bytes()),
        Err(_) => ExitStatus::NoMemory,
    }
}

fn book_line(alloc: Global, tables: &Tables) -> Result<String, AllocError>
    ensures { IfOk result (λ line. string_bytes line ≡ (book_line (rows_of tables.now)).text) }
{
    let acts = tables.acts.len();
    format!(in alloc; "book {acts}\n")
}
