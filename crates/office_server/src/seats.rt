//! The passes and seats of all workers.

ghost use Rattle.std.specs.Prelude.{◌≡◌, ◌<◌, ◌≤◌, ◌+◌, [], ◌∷◌, All, Contains, List, map, length, vec_capacity, ◌++◌, IfOk, IfErr, IfSome};
ghost use Rattle.desk_history.specs.declared.views.{PassView.PassView, Start.Start};
ghost use Rattle.shared_desk.specs.Passes.{AreFresh, IsFresh};
ghost use Rattle.office_server.specs.Links.{HasLearned};
ghost use mathlib.Core.List.{IsPrefix};

use crate::seat::ClerkSeat;
use http_front::shared_desk::{Desk, Naming, Note, Pass, SharedDesk};
use keeper_core::Keeper;
use std::alloc::Global;

/// The first passes of a desk, so many; or, where memory runs out, one alone.
pub(crate) fn passes_of<K: Keeper + Drop, B: Naming>(
    alloc: Global,
    desk: &mut Desk<K, B>,
    workers: u32,
) -> Result<Vec<Pass<B>>, Pass<B>>
    requires workers { (1 ≤ workers) × (workers ≤ 32) }
    requires made { desk.old.made ≡ 0 }
    ensures start { desk.new.start ≡ desk.old.start }
    ensures made { desk.new.made ≤ workers }
    ensures fresh { IfOk result (λ passes. AreFresh desk.old.start 1 passes.items) }
    ensures many { IfOk result (λ passes. length passes.items ≡ workers) }
    ensures one { IfErr result (λ pass. pass.start ≡ desk.old.start) }
{
    let Ok(mut passes) = Vec::with_capacity(alloc, workers as usize) else {
        return Err(next_pass(desk));
    };
    for place in 0..workers {
        passes.push_reserved(next_pass(desk));
    }
    Ok(passes)
}

/// The next pass of a desk that has one.
fn next_pass<K: Keeper + Drop, B: Naming>(desk: &mut Desk<K, B>) -> Pass<B>
    requires { desk.old.made < 32 }
    ensures start { desk.new.start ≡ desk.old.start }
    ensures made { desk.new.made ≡ desk.old.made + 1 }
    ensures fresh { IsFresh desk.old.start (desk.old.made + 1) result }
{
    match desk.pass() {
        Ok(pass) => pass,
        Err(_) => unreachable!(),
    }
}

/// Seats, and room for their passes.
#[derive(Drop)]
pub(crate) struct Seated<'a, R, K: Keeper + Drop, B: Naming, C> {
    pub(crate) seats: Vec<ClerkSeat<'a, R, K, B, C>>,
    pub(crate) room: Vec<Pass<B>>,
}

/// A seat for each of the passes, and room for as many passes; or, where memory runs out, one of these alone.
pub(crate) fn seats_by<'a, R, K: Keeper + Drop, B: Naming, C>(
    rt: &'a R,
    alloc: Global,
    desk: &'a SharedDesk<K, B>,
    mut passes: Vec<Pass<B>>,
    clock: &'a C,
) -> Result<Seated<'a, R, K, B, C>, Pass<B>>
    requires some { 0 < length passes.items }
    ensures passes { IfOk result (λ seated. map (λ seat. seat.pass) seated.seats.items ≡ passes.items) }
    ensures clock { IfOk result (λ seated. All (λ seat. seat.clock.now ≡ clock.now) seated.seats.items) }
    ensures room { IfOk result (λ seated. (seated.room.items ≡ []) × (length seated.seats.items ≤ vec_capacity seated.room)) }
    ensures one { IfErr result (λ pass. Contains passes.items pass) }
{
    let Ok(room) = Vec::with_capacity(alloc, passes.len()) else {
        return Err(passes.pop().unwrap());
    };
    let Ok(mut seats) = Vec::with_capacity(alloc, passes.len()) else {
        return Err(passes.pop().unwrap());
    };
    for pass in passes {
        seats.push_reserved(ClerkSeat {
            rt,
            desk,
            clock,
            pass,
        });
    }
    Ok(Seated { seats, room })
}

/// The passes of seats.
#[derive(Drop)]
pub(crate) struct SeatPasses<B: Naming> {
    /// That of the last seat, once it has learned what the log says.
    pub(crate) last: Pass<B>,
    pub(crate) others: Vec<Pass<B>>,
}

/// The passes of the seats, the last once it has learned what the log says.
pub(crate) fn gathered<R, K: Keeper + Drop, B: Naming, C>(
    mut seats: Vec<ClerkSeat<'_, R, K, B, C>>,
    room: Vec<Pass<B>>,
    log: Option<Note<B>>,
) -> SeatPasses<B>
    requires some { 0 < length seats.items }
    requires room { (room.items ≡ []) × (length seats.items ≤ vec_capacity room) }
    ensures passes { (last : PassView) × (map (λ seat. seat.pass) seats.entry.items ≡ result.others.items ++ last ∷ []) × HasLearned last result.last }
    ensures log { IfSome log (λ note. (note.start ≡ result.last.start) × IsPrefix note.list result.last.list) }
{
    let ClerkSeat {
        desk,
        mut pass,
        rt: _,
        clock: _,
    } = seats.pop().unwrap();
    learn_log(desk, &mut pass, log);
    SeatPasses {
        last: pass,
        others: passes_back(seats, room),
    }
}

/// The passes of seats, in their order.
fn passes_back<R, K: Keeper + Drop, B: Naming, C>(
    seats: Vec<ClerkSeat<'_, R, K, B, C>>,
    mut passes: Vec<Pass<B>>,
) -> Vec<Pass<B>>
    requires room { (passes.items ≡ []) × (length seats.items ≤ vec_capacity passes) }
    ensures { result.items ≡ map (λ seat. seat.pass) seats.entry.items }
{
    for seat in seats {
        let ClerkSeat {
            pass,
            rt: _,
            desk: _,
            clock: _,
        } = seat;
        passes.push_reserved(pass);
    }
    passes
}

/// Lets a pass learn what the log says, once there is a note in it.
fn learn_log<K: Keeper + Drop, B: Naming>(
    desk: &SharedDesk<K, B>,
    pass: &mut Pass<B>,
    log: Option<Note<B>>,
)
    ensures learned { HasLearned pass.old pass.new }
    ensures told { IfSome log (λ note. (note.start ≡ pass.new.start) × IsPrefix note.list pass.new.list) }
{
    if let Some(told) = log {
        desk.learn(pass, told);
    }
}
