//! The tables are made.

ghost use Rattle.std.specs.Prelude.{◌≡◌, [], Err, false, OnOk, OnErr, IfErr, IsTrue};
ghost use Rattle.sqlite.specs.{State.HasCleanDisk, State.ExecutesInside, State.KeepsCommit, State.Survives, Held.state};
ghost use Rattle.store_sql.specs.Schema.{no_schema};
ghost use Rattle.store_sql.specs.Takes.{IsExcused};
ghost use Rattle.store_write.specs.Effects.{Ran, IsMade, Makes, Undoes, MadeTrees};

use book_rows::ActRow;
use record_history::Record;
use sqlite::{Alter, Connection, Error, Transaction};
use store_sql::StoredRow;
use voucher_core::Line;

fn create<S: Alter>(tx: &mut Transaction<'_, S>, sql: &str) -> Result<(), Error>
    ensures same_reference { tx.new.conn.ghost_name ≡ tx.old.conn.ghost_name }
    ensures ran { HasCleanDisk (state S.Store tx.new.conn.now) → OnOk result (Ran sql.now (state S.Store tx.old.conn.now) (state S.Store tx.new.conn.now)) }
    ensures refused { HasCleanDisk (state S.Store tx.new.conn.now) → IfErr result (λ e. IsTrue (state S.Store tx.old.conn.now).in_transaction → ExecutesInside 0 sql.now [] (state S.Store tx.old.conn.now) (state S.Store tx.new.conn.now) (Err e)) }
    ensures inside { HasCleanDisk (state S.Store tx.new.conn.now) → OnOk result (IsTrue (state S.Store tx.new.conn.now).in_transaction) }
    ensures open { HasCleanDisk (state S.Store tx.new.conn.now) → OnOk result (IsTrue (state S.Store tx.new.conn.now).is_open) }
    ensures kept { HasCleanDisk (state S.Store tx.new.conn.now) → KeepsCommit (state S.Store tx.old.conn.now) (state S.Store tx.new.conn.now) }
    ensures survives { Survives (state S.Store tx.old.conn.now) (state S.Store tx.new.conn.now) (λ _. ⊥) }
{
    tx.execute(sql, &[])?;
    Ok(())
}

fn create_tables<S: Alter>(tx: &mut Transaction<'_, S>) -> Result<(), Error>
    ensures same_reference { tx.new.conn.ghost_name ≡ tx.old.conn.ghost_name }
    ensures made { HasCleanDisk (state S.Store tx.new.conn.now) → OnOk result ((state S.Store tx.old.conn.now).now.schema ≡ no_schema → IsMade (state S.Store tx.new.conn.now).now) }
    ensures cause { HasCleanDisk (state S.Store tx.new.conn.now) → IfErr result (λ e. IsTrue (state S.Store tx.old.conn.now).is_open → IsTrue (state S.Store tx.old.conn.now).in_transaction → (state S.Store tx.old.conn.now).now.schema ≡ no_schema → IsExcused (state S.Store tx.old.conn.now) (state S.Store tx.new.conn.now) e) }
    ensures inside { HasCleanDisk (state S.Store tx.new.conn.now) → OnOk result (IsTrue (state S.Store tx.new.conn.now).in_transaction) }
    ensures open { HasCleanDisk (state S.Store tx.new.conn.now) → OnOk result (IsTrue (state S.Store tx.new.conn.now).is_open) }
    ensures kept { HasCleanDisk (state S.Store tx.new.conn.now) → KeepsCommit (state S.Store tx.old.conn.now) (state S.Store tx.new.conn.now) }
    ensures survives { Survives (state S.Store tx.old.conn.now) (state S.Store tx.new.conn.now) (λ _. ⊥) }
{
    create(tx, ActRow::create_text())?;
    create(tx, Record::create_text())?;
    create(tx, Line::create_text())
}

/// Makes the three tables by one transaction: all of them, or none.
///
/// # Errors
///
/// `OutOfMemory` where memory ran out, else the error of the statement that was refused. `InvalidQuery` where a transaction
/// is open already.
pub fn make_tables<S: Alter>(conn: &mut Connection<S>) -> Result<(), Error>
    ensures made { HasCleanDisk (state S.Store conn.new) → OnOk result (Makes (state S.Store conn.old) (state S.Store conn.new)) }
    ensures undone { HasCleanDisk (state S.Store conn.new) → OnErr result (Undoes (state S.Store conn.old) (state S.Store conn.new)) }
    ensures cause { HasCleanDisk (state S.Store conn.new) → IfErr result (λ e. IsTrue (state S.Store conn.old).is_open → (state S.Store conn.old).in_transaction ≡ false → (state S.Store conn.old).now.schema ≡ no_schema → IsExcused (state S.Store conn.old) (state S.Store conn.new) e) }
    ensures survives { Survives (state S.Store conn.old) (state S.Store conn.new) (MadeTrees (state S.Store conn.old)) }
{
    if !conn.is_autocommit() {
        return Err(Error::InvalidQuery);
    }
    let mut tx = conn.transaction();
    create_tables(&mut tx)?;
    tx.commit()
}
