//! The name of a desk, by which contracts tell it from others.

use std::marker::Brand;

/// Which desk it is, and what was known when it was opened. A program picks it at the call that opens the desk.
pub trait Naming {
    ghost use Rattle.atomic_table.specs.Seated.{TableId};
    ghost use Rattle.book_rows.specs.Book.{Book};

    // The table of its history.
    ghost table: { TableId };

    // Just what the keeper told then.
    ghost told: { Book → Type 0 };

    // A stop then would have left the keeper's book and no other.
    ghost sound: { Type 0 };
}

impl Naming for Brand {
    ghost use Rattle.shared_desk.specs.Unnamed.{no_table};

    ghost table = { no_table };

    ghost told = { λ _. ⊥ };

    ghost sound = { ⊥ };
}
