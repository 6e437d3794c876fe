//! An act's rows are written, all or none.

ghost use Rattle.std.specs.Prelude.{◌≡◌, false, IsTrue, OnOk, OnErr, IfErr};
ghost use Rattle.sqlite.specs.{State.HasCleanDisk, State.KeepsCommit, State.Survives, Held.state, Effect.IsDatabase};
ghost use Rattle.store_sql.specs.Schema.{no_schema};
ghost use Rattle.store_sql.specs.Takes.{IsExcused, IsServing};
ghost use Rattle.store_write.specs.Causes.{Takes};
ghost use Rattle.store_write.specs.Effects.{Fills, Lands, AllFit, Undoes, BatchTrees, act_part, made_part, line_part};

use crate::inserting::{insert_act, insert_lines, insert_made};
use book_rows::Batch;
use sqlite::{Alter, Connection, Error, Transaction};

/// Writes the rows of an act, all that a transaction may hold of them.
fn fill<S: Alter>(tx: &mut Transaction<'_, S>, batch: &Batch) -> Result<(), Error>
    ensures same_reference { tx.new.conn.ghost_name ≡ tx.old.conn.ghost_name }
    ensures filled { HasCleanDisk (state S.Store tx.new.conn.now) → OnOk result (Fills (act_part batch.now.act) (made_part batch.now.made) (line_part batch.now.lines) (state S.Store tx.old.conn.now) (state S.Store tx.new.conn.now)) }
    ensures fit { OnOk result (AllFit batch.now) }
    ensures live { HasCleanDisk (state S.Store tx.new.conn.now) → OnOk result (IsDatabase (state S.Store tx.new.conn.now).now) }
    ensures known { HasCleanDisk (state S.Store tx.new.conn.now) → OnOk result ((state S.Store tx.old.conn.now).now.schema ≡ no_schema → ⊥) }
    ensures cause { HasCleanDisk (state S.Store tx.new.conn.now) → IfErr result (λ e. IsServing (state S.Store tx.old.conn.now) → IsDatabase (state S.Store tx.old.conn.now).now → IsTrue (state S.Store tx.old.conn.now).in_transaction → Takes (state S.Store tx.old.conn.now).now.trees batch.now → IsExcused (state S.Store tx.old.conn.now) (state S.Store tx.new.conn.now) e) }
    ensures kept { HasCleanDisk (state S.Store tx.new.conn.now) → KeepsCommit (state S.Store tx.old.conn.now) (state S.Store tx.new.conn.now) }
    ensures survives { Survives (state S.Store tx.old.conn.now) (state S.Store tx.new.conn.now) (λ _. ⊥) }
{
    insert_act(tx, &batch.act)?;
    insert_made(tx, &batch.made)?;
    insert_lines(tx, batch.lines.as_slice())
}

/// Writes the rows of an act by one transaction: all of them, or none.
///
/// # Errors
///
/// `OutOfMemory` where memory ran out, else the error of the statement that was refused. `InvalidQuery` where a transaction
/// is open already.
pub fn write_batch<S: Alter>(conn: &mut Connection<S>, batch: &Batch) -> Result<(), Error>
    ensures done { HasCleanDisk (state S.Store conn.new) → OnOk result (Lands (state S.Store conn.old) (state S.Store conn.new) batch.now) }
    ensures undone { HasCleanDisk (state S.Store conn.new) → OnErr result (Undoes (state S.Store conn.old) (state S.Store conn.new)) }
    ensures cause { HasCleanDisk (state S.Store conn.new) → IfErr result (λ e. IsServing (state S.Store conn.old) → (state S.Store conn.old).in_transaction ≡ false → Takes (state S.Store conn.old).now.trees batch.now → IsExcused (state S.Store conn.old) (state S.Store conn.new) e) }
    ensures survives { Survives (state S.Store conn.old) (state S.Store conn.new) (BatchTrees (state S.Store conn.old) batch.now) }
{
    if !conn.is_autocommit() {
        return Err(Error::InvalidQuery);
    }
    // Asked for its contract: what an open file holds is sound.
    let _schema = conn.schema();
    let mut tx = conn.transaction();
    fill(&mut tx, batch)?;
    tx.commit()
}
