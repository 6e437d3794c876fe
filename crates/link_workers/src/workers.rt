//! Several workers at one listener.

ghost use Rattle.std.specs.Prelude.{◌≡◌, ◌<◌, ◌≤◌, true, false, List, length};
ghost use Rattle.std.specs.List.{All};
ghost use Rattle.office_io.specs.Outside.{Faulted};
ghost use Rattle.link_workers.specs.Links.{IsLogged, IsServedByOne, IsServedFrom, KnowsStill, ServesLinks, TellsBack};
ghost use Rattle.link_workers.specs.Seats.{FollowsEach, MakesOnly, ServesAlone};

use crate::Seat;
use crate::alone::serve_links;
use crate::entry::{Entry, Start};
use office_links::Listener;
use std::alloc::Global;
use std::marker::Brand;
use std::sync::{Mutex, Wait};
use std::thread;
use std::thread::Threads;

/// The listener and the log after all that was served.
#[derive(Debug, Drop)]
pub struct Ended<L, G> {
    pub listener: L,
    pub log: G,
    /// Whether an accept failed. If none did, no link is left.
    pub failed: bool,
}

/// Serves the links of a listener by as many workers as there are seats, the caller among them, which has the last seat.
///
/// Each worker serves links until none is left or an accept has failed; then no worker accepts a further link. A worker
/// that can't be started leaves its links to the others. When all have ended, the caller goes on alone in the same way.
/// Before a link is given back, the seat that served it enters what it has come to into the log.
pub fn serve_all<R: Threads + Wait + Sync, L: Listener + Send, T: Seat + Send>(
    rt: &R,
    alloc: Global,
    listener: L,
    seats: &mut [T],
    log: T::Log,
) -> Ended<L, T::Log>
where
    L::In: Send,
    L::Out: Send,
    T::Log: Send,
    requires some { 0 < length seats.old }
    requires in_order { All T.in_order seats.old }
    ensures in_order { All T.in_order seats.new }
    ensures follows { FollowsEach T.follows seats.old seats.new }
    ensures fewer { L.left result.listener ≤ L.left listener }
    ensures all { result.failed ≡ false → (L.left result.listener ≡ 0) × (L.faults result.listener ≡ L.faults listener) }
    ensures failed { result.failed ≡ true → (0 < L.left result.listener) × Faulted (L.faults listener) (L.faults result.listener) }

    // However many workers there are, each link that is given back was served by one of them, and the log knows what that one
    // had then come to.
    ensures given_back { TellsBack (IsLogged (IsServedByOne T.serves T.follows seats.old) (T.knows result.log))
        (L.links listener) (L.links result.listener) }

    // One worker alone serves, in order, the very links that are given back.
    ensures alone { ServesAlone T.serves seats.old seats.new (L.left listener) (L.left result.listener)
        (L.links listener) (L.links result.listener) }
{
    if seats.len() == 1 {
        go_on(alloc, listener, &mut seats[0], log)
    } else {
        serve_shared::<R, L, T, Brand>(rt, alloc, listener, seats, log)
    }
}

/// The same, where the listener's start is named.
fn serve_shared<R: Threads + Wait + Sync, L: Listener + Send, T: Seat + Send, B: Start<T> + Send>(
    rt: &R,
    alloc: Global,
    listener: L,
    seats: &mut [T],
    log: T::Log,
) -> Ended<L, T::Log>
where
    L::In: Send,
    L::Out: Send,
    T::Log: Send,
    requires some { 0 < length seats.old }
    requires in_order { All T.in_order seats.old }
    requires left { L.left listener ≡ B.left }
    requires faults { L.faults listener ≡ B.faults }
    requires links { L.links listener ≡ B.links }
    requires makes { All (MakesOnly T.serves T.follows B.is_made) seats.old }
    ensures in_order { All T.in_order seats.new }
    ensures follows { FollowsEach T.follows seats.old seats.new }
    ensures fewer { L.left result.listener ≤ B.left }
    ensures all { result.failed ≡ false → (L.left result.listener ≡ 0) × (L.faults result.listener ≡ B.faults) }
    ensures failed { result.failed ≡ true → (0 < L.left result.listener) × Faulted B.faults (L.faults result.listener) }
    ensures given_back { TellsBack (IsLogged B.is_made (T.knows result.log)) B.links (L.links result.listener) }
{
    let entry = Mutex::new(Entry::<L, T, B>::new(listener, log));
    serve_each(rt, alloc, &entry, seats);
    finish(alloc, entry.into_inner(), seats)
}

/// Goes on alone from the last seat, unless an accept has failed. What a seat followed before, it follows still.
fn finish<L: Listener, T: Seat, B: Start<T>>(
    alloc: Global,
    entry: Entry<L, T, B>,
    seats: &mut [T],
) -> Ended<L, T::Log>
    requires some { 0 < length seats.old }
    requires in_order { All T.in_order seats.old }
    ensures in_order { All T.in_order seats.new }
    ensures follows { (first : List T) → FollowsEach T.follows first seats.old → FollowsEach T.follows first seats.new }
    ensures fewer { L.left result.listener ≤ B.left }
    ensures all { result.failed ≡ false → (L.left result.listener ≡ 0) × (L.faults result.listener ≡ B.faults) }
    ensures failed { result.failed ≡ true → (0 < L.left result.listener) × Faulted B.faults (L.faults result.listener) }
    ensures given_back { (first : List T) → All (MakesOnly T.serves T.follows B.is_made) first → FollowsEach T.follows first seats.old
        → TellsBack (IsLogged B.is_made (T.knows result.log)) B.links (L.links result.listener) }
{
    let last = seats.len() - 1;
    match entry.into_parts() {
        (listener, true, log) => Ended {
            listener,
            log,
            failed: true,
        },
        (listener, false, log) => go_on(alloc, listener, &mut seats[last], log),
    }
}

/// Serves what the lock's listener has left, by a worker for each seat.
fn serve_each<R: Threads + Wait + Sync, L: Listener + Send, T: Seat + Send, B: Start<T> + Send>(
    rt: &R,
    alloc: Global,
    entry: &Mutex<Entry<L, T, B>>,
    seats: &mut [T],
)
where
    L::In: Send,
    L::Out: Send,
    T::Log: Send,
    requires some { 0 < length seats.old }
    requires in_order { All T.in_order seats.old }
    requires makes { All (MakesOnly T.serves T.follows B.is_made) seats.old }
    ensures in_order { All T.in_order seats.new }
    ensures follows { FollowsEach T.follows seats.old seats.new }
{
    let workers = seats.len();
    thread::for_each_mut(
        rt,
        seats,
        workers,
        &|_: usize, seat: &mut T|
            requires { T.in_order seat.old × MakesOnly T.serves T.follows B.is_made seat.old }
            ensures { T.in_order seat.new × T.follows seat.old seat.new }
        { serve_in_turn(rt, alloc, entry, seat) },
    );
}

/// Serves links from one seat, until none is left or an accept has failed. The lock is free while a link is served.
fn serve_in_turn<R: Wait, L: Listener, T: Seat, B: Start<T>>(
    rt: &R,
    alloc: Global,
    entry: &Mutex<Entry<L, T, B>>,
    seat: &mut T,
)
    requires in_order { T.in_order seat.old }
    requires makes { MakesOnly T.serves T.follows B.is_made seat.old }
    ensures in_order { T.in_order seat.new }
    ensures follows { T.follows seat.old seat.new }
{
    for _ in rt.forever() {
        let Some((mut source, mut sink)) = entry.lock(rt).next() else {
            return;
        };
        seat.serve(alloc, &mut source, &mut sink);
        // The lock may be held by who waits for the next link, and the peer isn't to wait for that.
        L::hang_up(&mut sink);
        entry.lock(rt).done(seat, source, sink);
    }
    unreachable!()
}

/// Goes on alone from one seat.
fn go_on<L: Listener, T: Seat>(
    alloc: Global,
    mut listener: L,
    seat: &mut T,
    mut log: T::Log,
) -> Ended<L, T::Log>
    requires in_order { T.in_order seat.old }
    ensures in_order { T.in_order seat.new }
    ensures follows { T.follows seat.old seat.new }
    ensures served { ServesLinks T.serves seat.old seat.new (L.left listener) (L.left result.listener)
        (L.links listener) (L.links result.listener) }
    ensures given_back { TellsBack (IsLogged (IsServedFrom T.serves T.follows seat.old) (T.knows result.log)) (L.links listener) (L.links result.listener) }
    ensures knows_still { KnowsStill (T.knows log) (T.knows result.log) }
    ensures all { result.failed ≡ false → (L.left result.listener ≡ 0) × (L.faults result.listener ≡ L.faults listener) }
    ensures failed { result.failed ≡ true → (0 < L.left result.listener) × Faulted (L.faults listener) (L.faults result.listener) }
{
    let failed = !serve_links(alloc, &mut listener, seat, &mut log);
    Ended {
        listener,
        log,
        failed,
    }
}
