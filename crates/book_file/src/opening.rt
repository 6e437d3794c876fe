//! The file of a book is opened at a path.

ghost use Rattle.std.specs.Prelude.{◌≡◌, ◌⊎◌, true, false, IfOk, IfErr, Err};
ghost use Rattle.sqlite_std_file.specs.File.{IsFresh};
ghost use Rattle.book_file.specs.Opening.{HoldsFewPages, cannot_open, names_no_file, no_memory};

use crate::statuses::error_of;
use sqlite::{Error, ErrorCode, File, Options, Unknown};
use sqlite_disk::Files;
use std::hash::{BuildHasher, RandomState};

/// How many pages of the file are held in memory, of 4,096 bytes each. An office holds every row itself, and an act touches
/// few pages, so that SQLite's own 2,000 would take memory for nothing.
const HELD_PAGES: usize = 64;

/// The options of SQLite, with fewer pages.
fn options_by(seed: u64) -> Options
    ensures few { HoldsFewPages result }
    ensures seed { result.seed ≡ seed }
{
    Options {
        cache_pages: HELD_PAGES,
        ..Options::new(seed)
    }
}

/// Whether the path is one of SQLite's words for a base in memory, or for a URI.
fn names_no_file(path: &str) -> bool
    ensures { result ≡ names_no_file path.now }
{
    path == ":memory:" || path.as_bytes().starts_with(b"file:")
}

/// Opens the file of a book at the path, and its log, or makes empty ones there, and gives how SQLite is to use them. SQLite's
/// words for a base in memory and for a URI name no file.
pub fn open_book(rt: &HostRuntime, path: &str) -> Result<(Files<File>, Options), Error>
    ensures no_file { names_no_file path.now ≡ true → result ≡ Err cannot_open }
    ensures why { IfErr result (λ error. (error ≡ cannot_open) ⊎ (error ≡ no_memory)) }
    ensures few { IfOk result (λ opened. HoldsFewPages opened.1) }
    // They are the log and the file, and nothing was done with them yet.
    ensures fresh { IfOk result (λ opened. IsFresh true opened.0.log × IsFresh false opened.0.db) }
{
    if names_no_file(path) {
        return Err(Error::SqliteFailure(ErrorCode::CannotOpen));
    }
    let Ok(state) = RandomState::new(rt) else {
        return Err(Error::SqliteFailure(ErrorCode::CannotOpen));
    };
    let files = sqlite_std_file::open(rt, path, Unknown).map_err(error_of)?;
    Ok((files, options_by(state.hash_one(&0u8))))
}
