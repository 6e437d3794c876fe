//! A book is loaded, or its tables are made.

ghost use Rattle.std.specs.Prelude.{◌≡◌, ◌↔◌, false, Bool, IsTrue, Some, None, OnOk, IfOk, IfErr};
ghost use Rattle.sqlite.specs.{Held.state, State.Survives};
ghost use Rattle.sqlite.specs.declared.error.{Error.TheVariants.SqliteFailure, ErrorCode.TheVariants.OutOfMemory};
ghost use Rattle.store_sql.specs.Schema.{no_schema, HasTables};
ghost use Rattle.store_read.specs.Asking.{error_of};
ghost use Rattle.store_decode.specs.Read.{Narrows, first_bad};
ghost use Rattle.book_rows.specs.Book.{Book, book_of, empty_book};
ghost use Rattle.keeper_core.specs.{Keeping.Gives, declared.keeper.Loaded.TheVariants.Rows};
ghost use Rattle.keeper_sqlite.specs.Told.{Holds, HoldsBad, TellsNoMore, GoesOn, StaysOpen, LeavesBooks, IsSettled, IsAnswer, Notes, IsUnloadedByFault};

use crate::own::has_tables;
use book_rows::Tables;
use keeper_core::Loaded;
use sqlite::{Alter, Connection, Error, ErrorCode};
use std::alloc::Global;
use store_decode::narrowed;
use store_read::{AskFault, AskedRows, ask_tables};
use store_write::make_tables;

/// Whether memory ran out.
pub(crate) fn is_want_of_memory(error: &Error) -> bool
    ensures { IsTrue result ↔ (error.now ≡ SqliteFailure OutOfMemory) }
{
    matches!(error, Error::SqliteFailure(ErrorCode::OutOfMemory))
}

/// The rows of the three tables in their ranges, or the first bad one; and a fault where that has a cell of another type than
/// its column's.
fn loaded_of(rows: AskedRows) -> Result<Loaded, AskFault>
    ensures narrowed { IfOk result (λ loaded. Narrows rows.acts rows.records rows.lines loaded) }
    ensures answer { IfOk result IsAnswer }
    ensures mistyped { IfErr result (λ _. first_bad rows.acts rows.records rows.lines ≡ Some None) }
{
    let AskedRows {
        acts,
        records,
        lines,
    } = rows;
    match narrowed(acts, records, lines) {
        Loaded::Rows(tables) => Ok(Loaded::Rows(tables)),
        Loaded::BadRow { table, act } => Ok(Loaded::BadRow { table, act }),
        Loaded::Failed => Err(AskFault::Others(Error::InvalidQuery)),
        Loaded::NoMemory => unreachable!(),
    }
}

/// Asks for the rows of the three tables.
fn load_rows<S: Alter>(conn: &mut Connection<S>, alloc: Global) -> Result<Loaded, AskFault>
    ensures gives { IfOk result (λ loaded. (is_beside : Bool) → Gives (Holds (state S.Store conn.new) is_beside) (HoldsBad (state S.Store conn.new) is_beside) loaded) }
    ensures answer { IfOk result IsAnswer }
    ensures cause { IfErr result (λ fault. (is_beside : Bool) → ((state S.Store conn.old).now.schema ≡ no_schema → ⊥) → IsUnloadedByFault (state S.Store conn.old) is_beside (state S.Store conn.new) (error_of fault)) }
    ensures tells { (is_beside : Bool) → TellsNoMore (state S.Store conn.old) is_beside (state S.Store conn.new) is_beside }
    ensures goes_on { (is_beside : Bool) → GoesOn (state S.Store conn.old) is_beside (state S.Store conn.new) is_beside }
    ensures left { (is_beside : Bool) → LeavesBooks (state S.Store conn.old) is_beside → LeavesBooks (state S.Store conn.new) is_beside }
    ensures survives { Survives (state S.Store conn.old) (state S.Store conn.new) (λ _. ⊥) }
{
    let rows = ask_tables(conn, alloc)?;
    loaded_of(rows)
}

/// What holds between two statements.
fn settle<S: Alter>(conn: &Connection<S>)
    ensures { IsSettled (state S.Store conn.now) }
{
    // Asked for their contracts: outside a transaction what is seen is what is committed, and it is sound.
    let _is_alone = conn.is_autocommit();
    let _schema = conn.schema();
}

/// Whether nothing stands in the file.
fn is_empty<S: Alter>(conn: &Connection<S>) -> bool
    ensures { IsTrue result ↔ ((state S.Store conn.now).now.schema ≡ no_schema) }
{
    let schema = conn.schema();
    schema.tables.as_slice().is_empty()
        && schema.indexes.as_slice().is_empty()
        && schema.views.as_slice().is_empty()
}

/// Whether the three tables stand in the file as the program makes them, and nothing that touches them.
fn are_own<S: Alter>(conn: &Connection<S>) -> bool
    ensures { IsTrue result ↔ HasTables (state S.Store conn.now).now.schema }
{
    has_tables(conn.schema())
}

/// Whether something else stands in the file than the program's own tables and what doesn't touch them, now or when it was
/// loaded before.
fn is_beside<S: Alter>(conn: &Connection<S>, was_beside: bool) -> bool
    ensures { Notes (state S.Store conn.now).now.schema was_beside result }
{
    was_beside || !is_empty(conn) && !are_own(conn)
}

/// Makes the three tables in an empty file.
fn make<S: Alter>(conn: &mut Connection<S>) -> Result<(), Error>
    requires empty { (state S.Store conn.old).now.schema ≡ no_schema }
    ensures gives { OnOk result ((is_beside : Bool) (tables : Tables) → book_of tables ≡ empty_book → Gives (Holds (state S.Store conn.new) is_beside) (HoldsBad (state S.Store conn.new) is_beside) (Rows tables)) }
    ensures cause { IfErr result (λ e. (is_beside : Bool) → IsUnloadedByFault (state S.Store conn.old) is_beside (state S.Store conn.new) e) }
    ensures tells { (is_beside : Bool) → TellsNoMore (state S.Store conn.old) is_beside (state S.Store conn.new) is_beside }
    ensures goes_on { (is_beside : Bool) → GoesOn (state S.Store conn.old) is_beside (state S.Store conn.new) is_beside }
    ensures stays_open { StaysOpen (state S.Store conn.old) (state S.Store conn.new) }
    ensures left { (is_beside : Bool) → LeavesBooks (state S.Store conn.old) is_beside → LeavesBooks (state S.Store conn.new) is_beside }
{
    settle(conn);
    make_tables(conn)
}

/// Loads the rows of a file in which something may touch the three tables, or makes these where there are none.
fn load_beside<S: Alter>(conn: &mut Connection<S>, alloc: Global) -> Result<Loaded, Error>
    ensures answer { IfOk result IsAnswer }
    ensures stays_open { StaysOpen (state S.Store conn.old) (state S.Store conn.new) }
{
    match load_rows(conn, alloc) {
        Ok(loaded) => Ok(loaded),
        Err(AskFault::Others(error)) => Err(error),
        Err(AskFault::Acts(error)) => {
            if is_want_of_memory(&error) {
                return Err(error);
            }
            make_tables(conn)?;
            Ok(Loaded::Rows(Tables::new(alloc)))
        }
    }
}

/// Loads the rows of the three tables, or makes these where there are none.
fn load_or_make<S: Alter>(
    conn: &mut Connection<S>,
    is_beside: bool,
    alloc: Global,
) -> Result<Loaded, Error>
    ensures gives { IfOk result (Gives (Holds (state S.Store conn.new) is_beside) (HoldsBad (state S.Store conn.new) is_beside)) }
    ensures answer { IfOk result IsAnswer }
    ensures cause { IfErr result (IsUnloadedByFault (state S.Store conn.old) is_beside (state S.Store conn.new)) }
    ensures tells { TellsNoMore (state S.Store conn.old) is_beside (state S.Store conn.new) is_beside }
    ensures goes_on { GoesOn (state S.Store conn.old) is_beside (state S.Store conn.new) is_beside }
    ensures stays_open { StaysOpen (state S.Store conn.old) (state S.Store conn.new) }
    ensures left { LeavesBooks (state S.Store conn.old) is_beside → LeavesBooks (state S.Store conn.new) is_beside }
{
    if is_beside {
        return load_beside(conn, alloc);
    }
    if is_empty(conn) {
        make(conn)?;
        return Ok(Loaded::Rows(Tables::new(alloc)));
    }
    match load_rows(conn, alloc) {
        Ok(loaded) => Ok(loaded),
        Err(AskFault::Acts(error)) => Err(error),
        Err(AskFault::Others(error)) => Err(error),
    }
}

/// Takes note of what stands in the file, and loads it.
pub(crate) fn load_noting<S: Alter>(
    conn: &mut Connection<S>,
    is_beside: &mut bool,
    alloc: Global,
) -> Result<Loaded, Error>
    ensures gives { IfOk result (Gives (Holds (state S.Store conn.new) is_beside.new) (HoldsBad (state S.Store conn.new) is_beside.new)) }
    ensures answer { IfOk result IsAnswer }
    ensures cause { IfErr result (IsUnloadedByFault (state S.Store conn.old) is_beside.old (state S.Store conn.new)) }
    ensures notes { Notes (state S.Store conn.old).now.schema is_beside.old is_beside.new }
    ensures tells { TellsNoMore (state S.Store conn.old) is_beside.old (state S.Store conn.new) is_beside.new }
    ensures goes_on { GoesOn (state S.Store conn.old) is_beside.old (state S.Store conn.new) is_beside.new }
    ensures stays_open { StaysOpen (state S.Store conn.old) (state S.Store conn.new) }
    ensures left { LeavesBooks (state S.Store conn.old) is_beside.old → LeavesBooks (state S.Store conn.new) is_beside.new }
    ensures found { (book : Book) → Holds (state S.Store conn.new) is_beside.new book → LeavesBooks (state S.Store conn.new) is_beside.new }
{
    *is_beside = self::is_beside(conn, *is_beside);
    let loaded = load_or_make(conn, *is_beside, alloc);
    settle(conn);
    loaded
}
