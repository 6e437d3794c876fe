//! The office program over the system's streams, clock and ports, and a book in a file or in memory.
//!
//! What the words run over a keeper, and what that does, is proved by `program_choice`, for any streams, clock, ports and keeper;
//! how a file is opened and which status tells why it isn't, by `book_file`. Here the words choose the keeper, and the real ones
//! are made and used up. What is said of these is trusted: the words are those of the process; the streams, the clock and the ports are
//! the system's; and the files are those at the path, and do what is asked of them. They are opened as `FileFrom<Unknown>`:
//! nothing is known of what they held, and after a stop of the machine a torn write is supposed to leave each byte as it was
//! before or as it was written.
#![tactic(auto)]

ghost use Rattle.std.specs.Prelude.{◌≡◌, ◌≢◌, ◌⊎◌, None, Some, map, string_bytes};
ghost use Rattle.command_words.specs.Words.{book_in, words_after_book};
ghost use Rattle.program_answers.specs.Keeping.{OutlivesStops, StillTells};
ghost use Rattle.office_io.specs.declared.status.ExitStatus.TheVariants as exit;

use book_file::{open_book, status_of};
use command_words::book_and_words;
use keeper_core::{Keeper, MemoryKeeper};
use keeper_sqlite::SqliteKeeper;
use office_io::{ExitStatus, StreamSink, StreamSource, SystemClock};
use program_choice::{TcpPorts, run_words};
use sqlite::{Alter, Connection, FileStore, Options};
use sqlite_disk::{Disk, Files};
use std::net::{Net, TcpListener, TcpStream};
use std::rt::Env;
use std::sync::Wait;
use std::thread::Threads;
use std::{env, io};

fn words_of<R: Env + AllocGlobal>(rt: &R) -> io::Result<Vec<String>> {
    Ok(env::args(rt)?.skip(1).collect(rt.alloc())?)
}

/// What came of a run: the status, and what kept the book.
#[derive(Drop)]
struct RunEnd<K> {
    status: ExitStatus,
    kept: K,
}

/// Runs what the words name over the real streams, clock and ports, and a keeper.
fn run_over<
    H: Threads + Wait + Sync + Net<Listener = TcpListener, Stream = TcpStream>,
    K: Keeper + Drop + Send,
>(rt: &HostRuntime, handles: &H, words: &[String], keeper: K) -> RunEnd<K>
    ensures tells_on { StillTells (K.holds keeper) (K.is_well result.kept) (K.holds result.kept) }
    ensures stopped { OutlivesStops (K.holds keeper) (K.leaves keeper) (K.tells_crash keeper)
        (K.holds result.kept) (K.leaves result.kept) (K.tells_crash result.kept) }
{
    let mut source = StreamSource::new(rt.stdin());
    let mut sink = StreamSink::new(rt.stdout());
    let clock = SystemClock::new(rt);
    let ports = TcpPorts::new(handles);
    let ran = run_words(
        handles,
        rt.alloc(),
        words,
        &ports,
        &mut source,
        &mut sink,
        &clock,
        keeper,
    );
    RunEnd {
        status: ran.status,
        kept: ran.keeper,
    }
}

/// Runs the words over a book in memory, since all words name no file.
fn run_in_memory<H: Threads + Wait + Sync + Net<Listener = TcpListener, Stream = TcpStream>>(
    rt: &HostRuntime,
    handles: &H,
    _all: &[String],
    words: &[String],
) -> ExitStatus
    requires book { book_in (map string_bytes _all.now) ≡ None }
    requires words { map string_bytes words.now ≡ words_after_book (map string_bytes _all.now) }
{
    run_over(rt, handles, words, MemoryKeeper::new(rt.alloc())).status
}

/// Runs the words over the book in the file at the path that all words name.
fn run_on_file<H: Threads + Wait + Sync + Net<Listener = TcpListener, Stream = TcpStream>>(
    rt: &HostRuntime,
    handles: &H,
    _all: &[String],
    path: &str,
    words: &[String],
) -> ExitStatus
    requires book { book_in (map string_bytes _all.now) ≡ Some path.now }
    requires words { map string_bytes words.now ≡ words_after_book (map string_bytes _all.now) }
{
    match open_book(rt, path) {
        Ok((files, options)) => run_on_files(rt, handles, words, files, options),
        Err(error) => status_of(error),
    }
}

/// The same, over the book in a file and its log. This and the next speak of any disk or store, since a check of a file's own
/// has all its parts before it.
fn run_on_files<
    H: Threads + Wait + Sync + Net<Listener = TcpListener, Stream = TcpStream>,
    D: Disk + Drop + Send,
>(
    rt: &HostRuntime,
    handles: &H,
    words: &[String],
    files: Files<D>,
    options: Options,
) -> ExitStatus {
    // (files that were just opened may be used)
    if !files.may_be_used() {
        return ExitStatus::StoreFault;
    }
    match Connection::open_files(rt.alloc(), files, options) {
        Ok(connection) => closed(run_on(rt, handles, words, connection)),
        Err((error, _)) => status_of(error),
    }
}

/// The same, over the book of a connection.
fn run_on<
    H: Threads + Wait + Sync + Net<Listener = TcpListener, Stream = TcpStream>,
    S: Alter + Drop + Send,
>(
    rt: &HostRuntime,
    handles: &H,
    words: &[String],
    connection: Connection<S>,
) -> RunEnd<Connection<S>> {
    let ran = run_over(rt, handles, words, SqliteKeeper::adopt(connection));
    RunEnd {
        status: ran.status,
        kept: ran.kept.release(),
    }
}

/// Closes the file after a run, and gives the status. All that was acknowledged is kept by now: this copies the log into the
/// file. If that fails, a run that went well tells it by its status, and the next open copies the log.
fn closed<D: Disk + Drop>(ran: RunEnd<Connection<FileStore<D>>>) -> ExitStatus
    ensures failed { ran.status ≢ exit.Done → result ≡ ran.status }
    ensures well { ran.status ≡ exit.Done → (result ≡ exit.Done) ⊎ (result ≡ exit.StoreFault) }
{
    let RunEnd { status, kept } = ran;
    match kept.close() {
        Err(_) if status == ExitStatus::Done => ExitStatus::StoreFault,
        _ => status,
    }
}

/// Runs the program that the words of the process name, by the handles of its runtime, and tells how it ended.
///
/// `StoreFault`: the book's file doesn't open, or the log isn't copied into it at the end of a run that went well. `NoMemory`:
/// memory runs out for the words, or to open the file. What else comes is told by `program_choice`'s `run_words`.
pub fn run<H: Threads + Wait + Sync + Net<Listener = TcpListener, Stream = TcpStream>>(
    rt: &HostRuntime,
    handles: &H,
) -> ExitStatus {
    let words = match words_of(rt) {
        Ok(words) => words,
        Err(error) if error.kind() == io::ErrorKind::OutOfMemory => return ExitStatus::NoMemory,
        // Arguments that can't be read are no words, and so are answered with the usage.
        Err(_) => Vec::new(rt.alloc()),
    };
    let (book, others) = book_and_words(&words);
    match book {
        Some(path) => run_on_file(rt, handles, &words, path, others),
        None => run_in_memory(rt, handles, &words, others),
    }
}
