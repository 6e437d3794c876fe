//! The words choose a server or the program, which then runs.

ghost use Rattle.std.specs.Prelude.{◌≡◌, ◌≤◌, None, Some, map, string_bytes};
ghost use Rattle.command_words.specs.declared.serving.Serve.{Serve};
ghost use Rattle.command_words.specs.Words.{serve_in};
ghost use Rattle.office_prog.specs.Task.{task_in};
ghost use Rattle.office_server.specs.Links.{MayLeaveNow};
ghost use Rattle.program_answers.specs.{Keeping.OutlivesStops, Keeping.StillTells, Opening.door};
ghost use Rattle.program_choice.specs.{Running.RunsProgram, Serving.RunsServer};
ghost use Rattle.office_io.specs.declared.status.ExitStatus.TheVariants as exit;

use crate::ports::Ports;
use command_words::{Serve, serve_words};
use keeper_core::Keeper;
use office_io::{Clock, ExitStatus, Sink, Source};
use office_links::Listener;
use office_server::run_serve;
use std::alloc::Global;
use std::sync::Wait;
use std::thread::Threads;

/// What came of a run: the status, what kept the book, and the listener of a port that was served.
#[derive(Drop)]
pub struct RunEnd<K, L> {
    pub status: ExitStatus,
    pub keeper: K,
    pub listener: Option<L>,
}

/// Runs what the words name: a server of a port, by the words `serve PORT WORKERS CONNECTIONS`, or the program.
///
/// If no port is bound, the status is that of a read fault. What else comes is told by `office_prog`'s `run` and by `office_server`'s `run_serve`.
pub fn run_words<
    R: Threads + Wait + Sync,
    K: Keeper + Drop + Send,
    L: Listener + Send,
    P: Ports<L>,
    S: Source,
    W: Sink,
    C: Clock + Sync,
>(
    rt: &R,
    alloc: Global,
    words: &[String],
    ports: &P,
    source: &mut S,
    sink: &mut W,
    clock: &C,
    keeper: K,
) -> RunEnd<K, L>
where
    L::In: Send,
    L::Out: Send,
    // All other words than those of a server are the program's.
    ensures run { serve_in (map string_bytes words.now) ≡ None →
        RunsProgram (C.may_show clock.now) (task_in words.now) source.old source.new sink.old sink.new keeper result.keeper
        K.holds K.bad K.leaves K.tells_crash
        (door (S.left source.old) (W.held sink.old) (S.faults source.old) (W.faults sink.old) (K.faults keeper))
        (door (S.left source.new) (W.held sink.new) (S.faults source.new) (W.faults sink.new) (K.faults result.keeper)) result.status }
    ensures no_port { serve_in (map string_bytes words.now) ≡ None → result.listener ≡ None }

    // The port is bound for so many links as the words say, and so many workers serve them as they say.
    ensures served { (serve : Serve) (now : L) → serve_in (map string_bytes words.now) ≡ Some serve → result.listener ≡ Some now →
        (bound : L) × P.binds ports.now serve.port serve.connections (Some bound) × (L.left bound ≡ serve.connections)
        × RunsServer (C.may_show clock.now) serve.workers bound now L.left L.links (K.holds keeper) (K.holds result.keeper) (K.bad result.keeper)
        (MayLeaveNow (K.holds keeper) (K.leaves keeper) (K.tells_crash keeper) (K.holds result.keeper) (K.leaves result.keeper) (K.tells_crash result.keeper))
        (door None (W.held sink.old) (L.faults bound) (W.faults sink.old) (K.faults keeper))
        (door None (W.held sink.new) (L.faults now) (W.faults sink.new) (K.faults result.keeper)) result.status }

    // Or no port is bound, and nothing else is done.
    ensures unbound { (serve : Serve) → serve_in (map string_bytes words.now) ≡ Some serve → result.listener ≡ None →
        P.binds ports.now serve.port serve.connections None × (result.status ≡ exit.ReadFault) × (sink.new ≡ sink.old) × (result.keeper ≡ keeper) }
    ensures unread { (serve : Serve) → serve_in (map string_bytes words.now) ≡ Some serve → source.new ≡ source.old }

    // A keeper that is well tells a book at the end, if it told one.
    ensures tells_on { StillTells (K.holds keeper) (K.is_well result.keeper) (K.holds result.keeper) }

    // What a stop of the machine leaves from then on: the acts that are kept, or these and one more.
    ensures stopped { OutlivesStops (K.holds keeper) (K.leaves keeper) (K.tells_crash keeper)
        (K.holds result.keeper) (K.leaves result.keeper) (K.tells_crash result.keeper) }
{
    match serve_words(words) {
        Some(serve) => serve_port(rt, alloc, &serve, ports, sink, clock, keeper),
        None => run_program(alloc, words, source, sink, clock, keeper),
    }
}

/// Runs the program that the words name.
fn run_program<K: Keeper, L, S: Source, W: Sink, C: Clock>(
    alloc: Global,
    words: &[String],
    source: &mut S,
    sink: &mut W,
    clock: &C,
    mut keeper: K,
) -> RunEnd<K, L>
    ensures run { RunsProgram (C.may_show clock.now) (task_in words.now) source.old source.new sink.old sink.new keeper result.keeper
        K.holds K.bad K.leaves K.tells_crash
        (door (S.left source.old) (W.held sink.old) (S.faults source.old) (W.faults sink.old) (K.faults keeper))
        (door (S.left source.new) (W.held sink.new) (S.faults source.new) (W.faults sink.new) (K.faults result.keeper)) result.status }
    ensures no_port { result.listener ≡ None }
    ensures tells_on { StillTells (K.holds keeper) (K.is_well result.keeper) (K.holds result.keeper) }
    ensures stopped { OutlivesStops (K.holds keeper) (K.leaves keeper) (K.tells_crash keeper)
        (K.holds result.keeper) (K.leaves result.keeper) (K.tells_crash result.keeper) }
{
    let status = office_prog::run(alloc, words, source, sink, clock, &mut keeper);
    RunEnd {
        status,
        keeper,
        listener: None,
    }
}

/// Binds the port, and has as many workers serve it as are asked for.
fn serve_port<
    R: Threads + Wait + Sync,
    K: Keeper + Drop + Send,
    L: Listener + Send,
    P: Ports<L>,
    W: Sink,
    C: Clock + Sync,
>(
    rt: &R,
    alloc: Global,
    serve: &Serve,
    ports: &P,
    sink: &mut W,
    clock: &C,
    keeper: K,
) -> RunEnd<K, L>
where
    L::In: Send,
    L::Out: Send,
    requires workers { (1 ≤ serve.now.workers) × (serve.now.workers ≤ 32) }
    ensures served { (now : L) → result.listener ≡ Some now →
        (bound : L) × P.binds ports.now serve.now.port serve.now.connections (Some bound) × (L.left bound ≡ serve.now.connections)
        × RunsServer (C.may_show clock.now) serve.now.workers bound now L.left L.links (K.holds keeper) (K.holds result.keeper) (K.bad result.keeper)
        (MayLeaveNow (K.holds keeper) (K.leaves keeper) (K.tells_crash keeper) (K.holds result.keeper) (K.leaves result.keeper) (K.tells_crash result.keeper))
        (door None (W.held sink.old) (L.faults bound) (W.faults sink.old) (K.faults keeper))
        (door None (W.held sink.new) (L.faults now) (W.faults sink.new) (K.faults result.keeper)) result.status }
    ensures unbound { result.listener ≡ None →
        P.binds ports.now serve.now.port serve.now.connections None × (result.status ≡ exit.ReadFault) × (sink.new ≡ sink.old) × (result.keeper ≡ keeper) }
    ensures tells_on { StillTells (K.holds keeper) (K.is_well result.keeper) (K.holds result.keeper) }
    ensures stopped { OutlivesStops (K.holds keeper) (K.leaves keeper) (K.tells_crash keeper)
        (K.holds result.keeper) (K.leaves result.keeper) (K.tells_crash result.keeper) }
{
    match ports.bind(serve.port, serve.connections) {
        Some(links) => {
            let served = run_serve(rt, alloc, serve.workers, links, sink, clock, keeper);
            RunEnd {
                status: served.status,
                keeper: served.keeper,
                listener: Some(served.listener),
            }
        }
        None => RunEnd {
            status: ExitStatus::ReadFault,
            keeper,
            listener: None,
        },
    }
}
