//! Rows become rows of the book one after another, as they are read.

use plain_data::NoMemory;
use sqlite::Row;
use std::alloc::Global;
use std::marker::Model;
use store_sql::StoredRow;

/// The rows of one table, in the order in which they are read. As long as each stands for a row of a book, only that is kept.
///
/// Contracts see the rows as the file has them.
#[derive(Drop)]
pub struct ReadRows<T: StoredRow> {
    fitting: Vec<T>,
    /// From the first on that stands for none.
    rest: Vec<Row>,
}

impl<T: StoredRow> Model for ReadRows<T> {
    ghost use Rattle.std.specs.Prelude.{◌++◌, List, map};
    ghost use Rattle.sqlite.specs.Order.{Row as Cells};
    ghost use Rattle.store_sql.specs.Tables.{cells, fits};
    ghost use Rattle.store_decode.specs.Read.{AreFitting};

    ghost Value = { List Cells };

    ghost view = { λ rows. map (cells T.table) rows.fitting.items ++ rows.rest.items };

    ghost invariant = { λ rows. AreFitting (fits T.table) (map (cells T.table) rows.fitting.items) rows.rest.items };
}

impl<T: StoredRow> ReadRows<T> {
    ghost use Rattle.std.specs.Prelude.{◌≡◌, ◌++◌, ◌∷◌, [], None, Some, map, OnOk, MatchResult};
    ghost use Rattle.store_sql.specs.Tables.{cells, fits};
    ghost use Rattle.store_decode.specs.Read.{first_unfit};

    pub fn new(alloc: Global) -> ReadRows<T>
        ensures { result ≡ [] }
    {
        ReadRows {
            fitting: Vec::new(alloc),
            rest: Vec::new(alloc),
        }
    }

    /// Holds one row more.
    pub fn push(&mut self, alloc: Global, row: &Row) -> Result<(), NoMemory>
        ensures { OnOk result (self.new ≡ self.old ++ row.now ∷ []) }
    {
        if self.rest.is_empty() {
            if let Some(fitting) = T::of_cells(alloc, row)? {
                self.fitting.push(fitting)?;
                return Ok(());
            }
        }
        self.rest.push(row.copy()?)?;
        Ok(())
    }

    /// The rows of a book that they stand for, or the first that stands for none.
    pub fn finish(self) -> Result<Vec<T>, Row>
        ensures { MatchResult result (λ rows. (first_unfit (fits T.table) self ≡ None) × (map (cells T.table) rows.items ≡ self)) (λ row. first_unfit (fits T.table) self ≡ Some row) }
    {
        let ReadRows { mut fitting, rest } = self;
        // The room that was left as they grew is for what the office knows by them.
        fitting.shrink_to_fit();
        match rest.into_iter().next() {
            Some(row) => Err(row),
            None => Ok(fitting),
        }
    }
}
