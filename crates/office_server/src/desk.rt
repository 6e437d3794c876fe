//! Workers serve connections at a desk, which then ends.

ghost use Rattle.std.specs.Prelude.{◌≡◌, ◌⊎◌, ◌≤◌, ◌<◌, [], ◌∷◌, All, length};
ghost use Rattle.book_rows.specs.Book.{Book, book_of as rows_of};
ghost use Rattle.office_io.specs.Outside.{Faulted};
ghost use Rattle.program_answers.specs.Opening.{largest};
ghost use Rattle.desk_history.specs.declared.views.{PassView.PassView, Start.Start};
ghost use Rattle.shared_desk.specs.{Desk.IsFinishedWith, History.capacity_of};
ghost use Rattle.office_server.specs.Links.{LeavesDesk, LeavesTried, MayLeave, ServesAlone, ServesInTurn, ServesTogether, WorksBy};
ghost use Rattle.office_server.specs.declared.desk.ServeEnd.TheVariants as ends;

use crate::seats::{SeatPasses, Seated, gathered, passes_of, seats_by};
use desk_history::entries_are_those_of_the_number;
use http_front::shared_desk::{Desk, Finished, Naming, Pass, SharedDesk};
use keeper_core::Keeper;
use link_workers::{Ended, serve_all};
use office_io::Clock;
use office_links::Listener;
use std::alloc::Global;
use std::sync::Wait;
use std::thread::Threads;

/// What a desk and a listener leave when links were served.
#[derive(Drop)]
pub(crate) struct ServedDesk<K, L> {
    pub(crate) finished: Finished<K>,
    pub(crate) listener: L,
    pub(crate) end: ServeEnd,
}

/// How the serving ended.
#[derive(Clone, Copy, PartialEq, Eq)]
pub(crate) enum ServeEnd {
    /// No link is left.
    Whole,
    /// An accept failed.
    AcceptFailed,
    /// Memory ran out before a link was taken.
    Unserved,
}

/// Serves the links of a listener at a desk of which nobody has a pass, by so many workers, and ends the desk.
pub(crate) fn serve_desk<
    R: Threads + Wait + Sync,
    K: Keeper + Drop + Send,
    B: Naming + Send,
    L: Listener + Send,
    C: Clock + Sync,
>(
    rt: &R,
    alloc: Global,
    mut desk: Desk<K, B>,
    workers: u32,
    listener: L,
    clock: &C,
) -> ServedDesk<K, L>
where
    L::In: Send,
    L::Out: Send,
    requires workers { (1 ≤ workers) × (workers ≤ 32) }
    requires made { desk.made ≡ 0 }
    requires capacity { capacity_of desk.start ≡ largest }
    ensures leaves { LeavesDesk B.told (K.holds result.finished.keeper) (rows_of result.finished.tables) }
    ensures tells_on { K.is_well result.finished.keeper → (was : Book) → B.told was → K.holds result.finished.keeper (rows_of result.finished.tables) }
    ensures stopped { LeavesTried workers (MayLeave B.sound (K.tells_crash result.finished.keeper) (K.holds result.finished.keeper) (K.leaves result.finished.keeper))
        (rows_of result.finished.tables) }
    ensures whole { result.end ≡ ends.Whole → (L.left result.listener ≡ 0) × (L.faults result.listener ≡ L.faults listener) }
    ensures failed { result.end ≡ ends.AcceptFailed → (0 < L.left result.listener) × Faulted (L.faults listener) (L.faults result.listener) }
    ensures unserved { result.end ≡ ends.Unserved → result.listener ≡ listener }
    ensures together { (result.end ≡ ends.Unserved) ⊎ ServesTogether (C.may_show clock.now) workers (L.links listener) (L.links result.listener)
        (MayLeave B.sound (K.tells_crash result.finished.keeper) (K.holds result.finished.keeper) (K.leaves result.finished.keeper)) (rows_of result.finished.tables) }
    ensures in_turn { workers ≡ 1 → (result.end ≡ ends.Unserved) ⊎ ServesInTurn (C.may_show clock.now)
        (L.left listener) (L.left result.listener) (L.links listener) (L.links result.listener)
        (MayLeave B.sound (K.tells_crash result.finished.keeper) (K.holds result.finished.keeper) (K.leaves result.finished.keeper)) (rows_of result.finished.tables) }
{
    entries_are_those_of_the_number();
    match passes_of(alloc, &mut desk, workers) {
        Ok(passes) => {
            let worked = serve_by(rt, alloc, desk.shared(), passes, listener, clock);
            left_by(desk, worked)
        }
        Err(pass) => left_by(
            desk,
            WorkersEnd {
                pass,
                others: Vec::new(alloc),
                listener,
                end: ServeEnd::Unserved,
            },
        ),
    }
}

/// What the workers leave: the pass that has seen what all have, and the others.
#[derive(Drop)]
struct WorkersEnd<L, B: Naming> {
    pass: Pass<B>,
    others: Vec<Pass<B>>,
    listener: L,
    end: ServeEnd,
}

/// Ends a desk with the passes.
fn left_by<K: Keeper + Drop, B: Naming, L>(
    desk: Desk<K, B>,
    worked: WorkersEnd<L, B>,
) -> ServedDesk<K, L>
    ensures finished { IsFinishedWith worked.others.items worked.pass desk.made (rows_of result.finished.tables) B.told (K.holds result.finished.keeper) (K.is_well result.finished.keeper)
        B.sound (K.tells_crash result.finished.keeper) (K.leaves result.finished.keeper) }
    ensures listener { result.listener ≡ worked.listener }
    ensures end { result.end ≡ worked.end }
{
    let WorkersEnd {
        pass,
        others,
        listener,
        end,
    } = worked;
    ServedDesk {
        finished: desk.finish_with(pass, others),
        listener,
        end,
    }
}

/// Serves the links by a worker for each of the passes.
fn serve_by<
    R: Threads + Wait + Sync,
    K: Keeper + Drop + Send,
    B: Naming + Send,
    L: Listener + Send,
    C: Clock + Sync,
>(
    rt: &R,
    alloc: Global,
    desk: &SharedDesk<K, B>,
    passes: Vec<Pass<B>>,
    listener: L,
    clock: &C,
) -> WorkersEnd<L, B>
where
    L::In: Send,
    L::Out: Send,
    requires some { 0 < length passes.items }
    ensures start { (start : Start) → All (λ pass. pass.start ≡ start) passes.items → result.pass.start ≡ start }
    ensures whole { result.end ≡ ends.Whole → (L.left result.listener ≡ 0) × (L.faults result.listener ≡ L.faults listener) }
    ensures failed { result.end ≡ ends.AcceptFailed → (0 < L.left result.listener) × Faulted (L.faults listener) (L.faults result.listener) }
    ensures unserved { result.end ≡ ends.Unserved → result.listener ≡ listener }
    ensures works { (result.end ≡ ends.Unserved) ⊎ WorksBy (C.may_show clock.now) passes.items result.others.items result.pass (L.links listener) (L.links result.listener) }
    ensures alone { (pass : PassView) → passes.items ≡ pass ∷ [] → (result.end ≡ ends.Unserved) ⊎ ServesAlone (C.may_show clock.now) pass result.pass
        (L.left listener) (L.left result.listener) (L.links listener) (L.links result.listener) }
{
    match seats_by(rt, alloc, desk, passes, clock) {
        Ok(seated) => {
            let Seated { mut seats, room } = seated;
            let Ended {
                listener,
                log,
                failed,
            } = serve_all(rt, alloc, listener, &mut seats, None);
            let SeatPasses { last, others } = gathered(seats, room, log);
            WorkersEnd {
                pass: last,
                others,
                listener,
                end: if failed {
                    ServeEnd::AcceptFailed
                } else {
                    ServeEnd::Whole
                },
            }
        }
        Err(pass) => WorkersEnd {
            pass,
            others: Vec::new(alloc),
            listener,
            end: ServeEnd::Unserved,
        },
    }
}
