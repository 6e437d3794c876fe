//! A history is made and opened, and hands out its passes.

ghost use Rattle.std.specs.Prelude.{◌≡◌, [], ◌∷◌, IfOk};
ghost use Rattle.book_rows.specs.Book.{book_of as rows_of};
ghost use Rattle.desk_history.specs.declared.views.View.TheVariants.{Blank, Free, Home};
ghost use Rattle.desk_history.specs.Seen.{book_of, start_on};
ghost use Rattle.desk_history.specs.Moves.{opened, one_handed_out, new_pass};

use crate::rule::{
    Becomes, HistoryBadge, HistorySeat, HistoryTable, OneHistory, SharedHistory, Wanted,
};
use crate::views::View;
use atomic_table::{Split, Table};
use book_rows::Tables;
use keeper_core::Keeper;
use plain_data::NoMemory;
use std::alloc::Global;
use std::marker::Brand;

/// A history that isn't opened yet, and the seat that its book will have.
#[derive(Drop)]
pub struct NewHistory {
    pub table: HistoryTable,
    pub book: HistorySeat,
}

/// Makes a history, and fails only where memory ran out.
pub fn new_history(alloc: Global) -> Result<NewHistory, NoMemory>
    ensures words { IfOk result (λ made. made.table.shared.table_id.words ≡ 1) }
    ensures same { IfOk result (λ made. made.book.table_id ≡ made.table.shared.table_id) }
    ensures blank { IfOk result (λ made. made.book.me ≡ (Blank, [])) }
{
    let (table, book) = Table::<(), View, (), OneHistory, Global>::of_words(alloc, &[0], &())?;
    Ok(NewHistory { table, book })
}

fn open_book_as<A: Wanted, K: Keeper>(
    history: &SharedHistory,
    book: &mut HistorySeat,
    tables: &Tables,
    most_acts: u32,
    most_lines: u32,
    keeper: &K,
)
    requires table { (book.old.table_id ≡ history.now.table_id) × (history.now.table_id.words ≡ 1) }
    requires blank { book.old.me ≡ (Blank, []) }
    requires wanted { A.view ≡ Free (opened (start_on (rows_of tables.now) most_acts most_lines) (K.faults keeper.now)) }
    ensures same { book.new.table_id ≡ book.old.table_id }
    ensures view { book.new.me ≡ (Free (opened (start_on (rows_of tables.now) most_acts most_lines) (K.faults keeper.now)), []) }
{
    history.load::<Becomes<A>>(book, 0);
}

/// Opens a new history on a book's rows, for an office that holds so many acts and lines, with a keeper's count of faults.
pub fn open_book<K: Keeper>(
    history: &SharedHistory,
    book: &mut HistorySeat,
    tables: &Tables,
    most_acts: u32,
    most_lines: u32,
    keeper: &K,
)
    requires table { (book.old.table_id ≡ history.now.table_id) × (history.now.table_id.words ≡ 1) }
    requires blank { book.old.me ≡ (Blank, []) }
    ensures same { book.new.table_id ≡ book.old.table_id }
    ensures view { book.new.me ≡ (Free (opened (start_on (rows_of tables.now) most_acts most_lines) (K.faults keeper.now)), []) }
{
    open_book_as::<Brand, K>(history, book, tables, most_acts, most_lines, keeper);
}

/// How a new pass is split off.
pub struct HandOut;

impl Split<View> for HandOut {
    ghost use Rattle.desk_history.specs.declared.views.View.TheVariants.{Free, Home};
    ghost use Rattle.desk_history.specs.Seen.{book_of};
    ghost use Rattle.desk_history.specs.Moves.{one_handed_out, new_pass};

    ghost left = { λ view. Free (one_handed_out (book_of view)) };

    ghost right = { λ view. Home (new_pass (book_of view)) };
}

/// Hands out a new pass, with the next number.
pub fn hand_out(history: &SharedHistory, book: &mut HistorySeat) -> HistoryBadge
    requires table { (book.old.table_id ≡ history.now.table_id) × (history.now.table_id.words ≡ 1) }
    requires free { book.old.me ≡ (Free (book_of book.old.me.0), []) }
    ensures same { book.new.table_id ≡ book.old.table_id }
    ensures book { book.new.me ≡ (Free (one_handed_out (book_of book.old.me.0)), []) }
    ensures table { result.table_id ≡ history.now.table_id }
    ensures pass { result.views ≡ Home (new_pass (book_of book.old.me.0)) ∷ [] }
{
    history.split_seat::<HandOut>(book).into_badge()
}
