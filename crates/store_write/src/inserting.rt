//! Rows are inserted.

ghost use Rattle.std.specs.Prelude.{◌≡◌, ℕ, suc, List, [], ◌∷◌, map, true, IsTrue, IsPermutation, OnOk, IfErr};
ghost use Rattle.std.specs.List.{AllByRecursion};
ghost use Rattle.sqlite.specs.{Values.bound, State.HasCleanDisk, State.KeepsCommit, State.Survives, Held.state, Effect.IsDatabase};
ghost use Rattle.record_history.specs.declared.records.Record.{Record as BookRecord};
ghost use Rattle.voucher_core.specs.declared.line.Line.{Line as BookLine};
ghost use Rattle.store_sql.specs.{Tables.cells, Tables.fits, Columns.acts, Columns.records, Columns.lines as line_table, Schema.no_schema, Schema.HasTables, Trees.rows_in};
ghost use Rattle.store_sql.specs.Takes.{IsExcused, IsServing, IsNew, HasNumbers};
ghost use Rattle.store_write.specs.Effects.{Inserts, Fills, line_part, made_part};
ghost use Rattle.store_write.specs.Causes.{IsRejected, TakesAct, TakesMade, TakesLines};

use book_rows::ActRow;
use record_history::Record;
use sqlite::types::ValueRef;
use sqlite::{Alter, Error, Transaction};
use store_sql::{StoredRow, act_cells, line_cells, record_cells};
use voucher_core::Line;

/// Runs a statement that is to tell of one row.
fn insert_row<S: Alter>(
    tx: &mut Transaction<'_, S>,
    sql: &str,
    values: &[ValueRef<'_>],
) -> Result<(), Error>
    ensures same_reference { tx.new.conn.ghost_name ≡ tx.old.conn.ghost_name }
    ensures inserted { HasCleanDisk (state S.Store tx.new.conn.now) → OnOk result (Inserts sql.now (bound values.now) (state S.Store tx.old.conn.now) (state S.Store tx.new.conn.now)) }
    ensures refused { HasCleanDisk (state S.Store tx.new.conn.now) → IfErr result (λ e. IsTrue (state S.Store tx.old.conn.now).in_transaction → IsRejected sql.now (bound values.now) (state S.Store tx.old.conn.now) (state S.Store tx.new.conn.now) e) }
    ensures kept { HasCleanDisk (state S.Store tx.new.conn.now) → KeepsCommit (state S.Store tx.old.conn.now) (state S.Store tx.new.conn.now) }
    ensures survives { Survives (state S.Store tx.old.conn.now) (state S.Store tx.new.conn.now) (λ _. ⊥) }
{
    let count = tx.execute(sql, values)?;
    if count == 1 {
        Ok(())
    } else {
        Err(Error::InvalidQuery)
    }
}

pub fn insert_act<S: Alter>(tx: &mut Transaction<'_, S>, act: &ActRow) -> Result<(), Error>
    ensures same_reference { tx.new.conn.ghost_name ≡ tx.old.conn.ghost_name }
    ensures filled { HasCleanDisk (state S.Store tx.new.conn.now) → OnOk result (Fills (cells acts act.now ∷ []) [] [] (state S.Store tx.old.conn.now) (state S.Store tx.new.conn.now)) }
    ensures fits { fits acts (cells acts act.now) ≡ true }
    ensures live { HasCleanDisk (state S.Store tx.new.conn.now) → OnOk result (IsDatabase (state S.Store tx.new.conn.now).now) }
    ensures known { HasCleanDisk (state S.Store tx.new.conn.now) → OnOk result ((state S.Store tx.old.conn.now).now.schema ≡ no_schema → ⊥) }
    ensures cause { HasCleanDisk (state S.Store tx.new.conn.now) → IfErr result (λ e. IsServing (state S.Store tx.old.conn.now) → IsDatabase (state S.Store tx.old.conn.now).now → IsTrue (state S.Store tx.old.conn.now).in_transaction → TakesAct (state S.Store tx.old.conn.now).now.trees act.now → IsExcused (state S.Store tx.old.conn.now) (state S.Store tx.new.conn.now) e) }
    ensures numbers { HasCleanDisk (state S.Store tx.new.conn.now) → OnOk result ((more : ℕ) → HasTables (state S.Store tx.old.conn.now).now.schema → HasNumbers ((state S.Store tx.old.conn.now).now.trees 4) more → HasNumbers ((state S.Store tx.new.conn.now).now.trees 4) more) }
    ensures kept { HasCleanDisk (state S.Store tx.new.conn.now) → KeepsCommit (state S.Store tx.old.conn.now) (state S.Store tx.new.conn.now) }
    ensures survives { Survives (state S.Store tx.old.conn.now) (state S.Store tx.new.conn.now) (λ _. ⊥) }
{
    insert_row(tx, ActRow::insert_text(), &act_cells(act))
}

fn insert_record<S: Alter>(tx: &mut Transaction<'_, S>, made: &Record) -> Result<(), Error>
    ensures same_reference { tx.new.conn.ghost_name ≡ tx.old.conn.ghost_name }
    ensures filled { HasCleanDisk (state S.Store tx.new.conn.now) → OnOk result (Fills [] (cells records made.now ∷ []) [] (state S.Store tx.old.conn.now) (state S.Store tx.new.conn.now)) }
    ensures fits { fits records (cells records made.now) ≡ true }
    ensures cause { HasCleanDisk (state S.Store tx.new.conn.now) → IfErr result (λ e. IsServing (state S.Store tx.old.conn.now) → IsDatabase (state S.Store tx.old.conn.now).now → IsTrue (state S.Store tx.old.conn.now).in_transaction → (there : List BookRecord) → IsPermutation (map (cells records) there) (rows_in records (state S.Store tx.old.conn.now).now.trees) → IsNew records there made.now → IsExcused (state S.Store tx.old.conn.now) (state S.Store tx.new.conn.now) e) }
    ensures numbers { HasCleanDisk (state S.Store tx.new.conn.now) → OnOk result ((more : ℕ) → HasTables (state S.Store tx.old.conn.now).now.schema → HasNumbers ((state S.Store tx.old.conn.now).now.trees 4) more → HasNumbers ((state S.Store tx.new.conn.now).now.trees 4) more) }
    ensures kept { HasCleanDisk (state S.Store tx.new.conn.now) → KeepsCommit (state S.Store tx.old.conn.now) (state S.Store tx.new.conn.now) }
    ensures survives { Survives (state S.Store tx.old.conn.now) (state S.Store tx.new.conn.now) (λ _. ⊥) }
{
    insert_row(tx, Record::insert_text(), &record_cells(made))
}

/// Writes the record that an act made, if it made one.
pub fn insert_made<S: Alter>(
    tx: &mut Transaction<'_, S>,
    made: &Option<Record>,
) -> Result<(), Error>
    ensures same_reference { tx.new.conn.ghost_name ≡ tx.old.conn.ghost_name }
    ensures filled { HasCleanDisk (state S.Store tx.new.conn.now) → OnOk result (Fills [] (made_part made.now) [] (state S.Store tx.old.conn.now) (state S.Store tx.new.conn.now)) }
    ensures fits { AllByRecursion (λ row. fits records row ≡ true) (made_part made.now) }
    ensures cause { HasCleanDisk (state S.Store tx.new.conn.now) → IfErr result (λ e. IsServing (state S.Store tx.old.conn.now) → IsDatabase (state S.Store tx.old.conn.now).now → IsTrue (state S.Store tx.old.conn.now).in_transaction → TakesMade (state S.Store tx.old.conn.now).now.trees made.now → IsExcused (state S.Store tx.old.conn.now) (state S.Store tx.new.conn.now) e) }
    ensures numbers { HasCleanDisk (state S.Store tx.new.conn.now) → OnOk result ((more : ℕ) → HasTables (state S.Store tx.old.conn.now).now.schema → HasNumbers ((state S.Store tx.old.conn.now).now.trees 4) more → HasNumbers ((state S.Store tx.new.conn.now).now.trees 4) more) }
    ensures kept { HasCleanDisk (state S.Store tx.new.conn.now) → KeepsCommit (state S.Store tx.old.conn.now) (state S.Store tx.new.conn.now) }
    ensures survives { Survives (state S.Store tx.old.conn.now) (state S.Store tx.new.conn.now) (λ _. ⊥) }
{
    match made {
        Some(record) => insert_record(tx, record),
        None => Ok(()),
    }
}

fn insert_line<S: Alter>(tx: &mut Transaction<'_, S>, line: &Line) -> Result<(), Error>
    ensures same_reference { tx.new.conn.ghost_name ≡ tx.old.conn.ghost_name }
    ensures filled { HasCleanDisk (state S.Store tx.new.conn.now) → OnOk result (Fills [] [] (cells line_table line.now ∷ []) (state S.Store tx.old.conn.now) (state S.Store tx.new.conn.now)) }
    ensures fits { fits line_table (cells line_table line.now) ≡ true }
    ensures cause { HasCleanDisk (state S.Store tx.new.conn.now) → IfErr result (λ e. IsServing (state S.Store tx.old.conn.now) → IsDatabase (state S.Store tx.old.conn.now).now → IsTrue (state S.Store tx.old.conn.now).in_transaction → (there : List BookLine) (more : ℕ) → IsPermutation (map (cells line_table) there) (rows_in line_table (state S.Store tx.old.conn.now).now.trees) → IsNew line_table there line.now → HasNumbers ((state S.Store tx.old.conn.now).now.trees 4) (suc more) → IsExcused (state S.Store tx.old.conn.now) (state S.Store tx.new.conn.now) e) }
    ensures numbers { HasCleanDisk (state S.Store tx.new.conn.now) → OnOk result ((more : ℕ) → HasTables (state S.Store tx.old.conn.now).now.schema → HasNumbers ((state S.Store tx.old.conn.now).now.trees 4) (suc more) → HasNumbers ((state S.Store tx.new.conn.now).now.trees 4) more) }
    ensures kept { HasCleanDisk (state S.Store tx.new.conn.now) → KeepsCommit (state S.Store tx.old.conn.now) (state S.Store tx.new.conn.now) }
    ensures survives { Survives (state S.Store tx.old.conn.now) (state S.Store tx.new.conn.now) (λ _. ⊥) }
{
    insert_row(tx, Line::insert_text(), &line_cells(line))
}

pub fn insert_lines<S: Alter>(tx: &mut Transaction<'_, S>, lines: &[Line]) -> Result<(), Error>
    ensures same_reference { tx.new.conn.ghost_name ≡ tx.old.conn.ghost_name }
    ensures filled { HasCleanDisk (state S.Store tx.new.conn.now) → OnOk result (Fills [] [] (line_part lines.now) (state S.Store tx.old.conn.now) (state S.Store tx.new.conn.now)) }
    ensures fit { OnOk result (AllByRecursion (λ row. fits line_table row ≡ true) (line_part lines.now)) }
    ensures cause { HasCleanDisk (state S.Store tx.new.conn.now) → IfErr result (λ e. IsServing (state S.Store tx.old.conn.now) → IsDatabase (state S.Store tx.old.conn.now).now → IsTrue (state S.Store tx.old.conn.now).in_transaction → TakesLines (state S.Store tx.old.conn.now).now.trees lines.now → IsExcused (state S.Store tx.old.conn.now) (state S.Store tx.new.conn.now) e) }
    ensures kept { HasCleanDisk (state S.Store tx.new.conn.now) → KeepsCommit (state S.Store tx.old.conn.now) (state S.Store tx.new.conn.now) }
    ensures survives { Survives (state S.Store tx.old.conn.now) (state S.Store tx.new.conn.now) (λ _. ⊥) }
{
    for line in lines {
        insert_line(tx, line)?;
    }
    Ok(())
}
