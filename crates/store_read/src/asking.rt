//! The rows of all tables are asked for.

ghost use Rattle.std.specs.Prelude.{◌≡◌, ◌++◌, ◌∷◌, [], false, OnOk, IfOk, IfErr};
ghost use Rattle.sqlite.specs.{State.HasCleanDisk, State.Survives, Held.state};
ghost use Rattle.sqlite.specs.declared.error.{Error.TheVariants.SqliteFailure, ErrorCode.TheVariants.OutOfMemory};
ghost use Rattle.store_sql.specs.Tables.{select_text};
ghost use Rattle.store_sql.specs.Columns.{acts as act_table};
ghost use Rattle.store_sql.specs.Schema.{no_schema};
ghost use Rattle.store_sql.specs.Takes.{IsExcused, IsServing};
ghost use Rattle.store_read.specs.Asking.{AreAsked, AreShown, Asks, OnlyReads, ShowsTable, IsRefusedByFault, IsUnreadByFault, AreUnreadByFault};
ghost use Rattle.store_write.specs.Effects.{Undoes};

use book_rows::ActRow;
use plain_data::NoMemory;
use record_history::Record;
use sqlite::{Alter, Connection, Error, ErrorCode, Row};
use std::alloc::Global;
use store_decode::ReadRows;
use store_sql::StoredRow;
use voucher_core::Line;

const NO_MEMORY: Error = Error::SqliteFailure(ErrorCode::OutOfMemory);

/// The rows of the three tables, each narrowed as it was read.
#[derive(Drop)]
pub struct AskedRows {
    pub acts: ReadRows<ActRow>,
    pub records: ReadRows<Record>,
    pub lines: ReadRows<Line>,
}

/// Why the rows weren't given.
#[derive(Drop)]
pub enum AskFault {
    /// The query on `acts` was refused.
    Acts(Error),
    /// Another query was refused, a row couldn't be read, or a transaction is open already.
    Others(Error),
}

/// Holds one row more.
fn hold<T: StoredRow>(read: &mut ReadRows<T>, alloc: Global, row: &Row) -> Result<(), Error>
    ensures holds { OnOk result (read.new ≡ read.old ++ row.now ∷ []) }
    ensures fails { IfErr result (λ e. e ≡ SqliteFailure OutOfMemory) }
{
    match read.push(alloc, row) {
        Ok(()) => Ok(()),
        Err(NoMemory) => Err(NO_MEMORY),
    }
}

/// The rows that the table holds, each held before the next is asked for.
fn read_rows<S: Alter, T: StoredRow>(
    conn: &mut Connection<S>,
    alloc: Global,
) -> Result<ReadRows<T>, Error>
    requires reads { OnlyReads (select_text T.table) }
    requires refused { IsRefusedByFault S.Store (select_text T.table) }
    requires alone { conn.old.in_transaction ≡ false }
    ensures shown { HasCleanDisk (state S.Store conn.new) → IfOk result (λ rows. AreShown S.Store (select_text T.table) rows conn.old conn.new) }
    ensures cause { HasCleanDisk (state S.Store conn.new) → IfErr result (λ e. IsServing (state S.Store conn.old) → IsExcused (state S.Store conn.old) (state S.Store conn.new) e) }
    ensures undone { HasCleanDisk (state S.Store conn.new) → Undoes (state S.Store conn.old) (state S.Store conn.new) }
    ensures alone { conn.new.in_transaction ≡ false }
    ensures survives { Survives (state S.Store conn.old) (state S.Store conn.new) (λ _. ⊥) }
{
    // Asked for its contract: outside a transaction what is seen is what is committed.
    let _is_alone = conn.is_autocommit();
    let mut read = ReadRows::new(alloc);
    let mut rows = conn.query(T::select_text(), &[])?;
    'rows: for _ in 0..u64::MAX {
        let Some(row) = rows.next()? else {
            return Ok(read);
        };
        hold(&mut read, alloc, row)?;
    }
    // There is no memory for so many rows.
    Err(NO_MEMORY)
}

/// The rows of a table, of a book's file.
fn ask<S: Alter, T: StoredRow>(
    conn: &mut Connection<S>,
    alloc: Global,
) -> Result<ReadRows<T>, AskFault>
    requires reads { OnlyReads (select_text T.table) }
    requires refused { IsRefusedByFault S.Store (select_text T.table) }
    requires shows { ShowsTable S.Store T.table }
    requires alone { conn.old.in_transaction ≡ false }
    ensures shown { HasCleanDisk (state S.Store conn.new) → IfOk result (λ rows. Asks T.table rows (state S.Store conn.old) (state S.Store conn.new)) }
    ensures cause { HasCleanDisk (state S.Store conn.new) → IfErr result (IsUnreadByFault (state S.Store conn.old) (state S.Store conn.new)) }
    ensures undone { HasCleanDisk (state S.Store conn.new) → Undoes (state S.Store conn.old) (state S.Store conn.new) }
    ensures alone { conn.new.in_transaction ≡ false }
    ensures survives { Survives (state S.Store conn.old) (state S.Store conn.new) (λ _. ⊥) }
{
    match read_rows::<S, T>(conn, alloc) {
        Ok(rows) => Ok(rows),
        Err(error) => Err(AskFault::Others(error)),
    }
}

/// The acts, of a file in which the query on them is understood.
fn ask_acts<S: Alter>(conn: &mut Connection<S>, alloc: Global) -> Result<ReadRows<ActRow>, AskFault>
    requires alone { conn.old.in_transaction ≡ false }
    ensures known { HasCleanDisk (state S.Store conn.new) → OnOk result ((state S.Store conn.old).now.schema ≡ no_schema → ⊥) }
    ensures shown { HasCleanDisk (state S.Store conn.new) → IfOk result (λ rows. Asks act_table rows (state S.Store conn.old) (state S.Store conn.new)) }
    ensures cause { HasCleanDisk (state S.Store conn.new) → IfErr result (IsUnreadByFault (state S.Store conn.old) (state S.Store conn.new)) }
    ensures undone { HasCleanDisk (state S.Store conn.new) → Undoes (state S.Store conn.old) (state S.Store conn.new) }
    ensures alone { conn.new.in_transaction ≡ false }
    ensures survives { Survives (state S.Store conn.old) (state S.Store conn.new) (λ _. ⊥) }
{
    let _is_alone = conn.is_autocommit();
    if let Err(error) = conn.prepare(ActRow::select_text()) {
        return Err(AskFault::Acts(error));
    }
    ask::<S, ActRow>(conn, alloc)
}

/// Asks for the rows of the three tables, one after another. Nothing changes: the file is the connection's alone while it is
/// open, so they are of one moment without a transaction.
pub fn ask_tables<S: Alter>(conn: &mut Connection<S>, alloc: Global) -> Result<AskedRows, AskFault>
    ensures shown { HasCleanDisk (state S.Store conn.new) → IfOk result (λ rows. AreAsked rows (state S.Store conn.old).now) }
    ensures cause { HasCleanDisk (state S.Store conn.new) → IfErr result (AreUnreadByFault (state S.Store conn.old) (state S.Store conn.new)) }
    ensures undone { HasCleanDisk (state S.Store conn.new) → Undoes (state S.Store conn.old) (state S.Store conn.new) }
    ensures survives { Survives (state S.Store conn.old) (state S.Store conn.new) (λ _. ⊥) }
{
    if !conn.is_autocommit() {
        return Err(AskFault::Others(Error::InvalidQuery));
    }
    let acts = ask_acts(conn, alloc)?;
    let records = ask::<S, Record>(conn, alloc)?;
    let lines = ask::<S, Line>(conn, alloc)?;
    Ok(AskedRows {
        acts,
        records,
        lines,
    })
}
