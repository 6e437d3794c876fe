//! A list of rows.

use std::marker::Model;

/// Rows in their order, which contracts see as a list.
#[derive(Debug, Drop)]
pub struct Listed<T> {
    rows: Vec<T>,
}

impl<T> Model for Listed<T> {
    ghost use Rattle.std.specs.Prelude.{List};

    ghost Value = { List T };

    ghost view = { λ listed. listed.rows.items };
}

impl<T> Listed<T> {
    ghost use Rattle.std.specs.Prelude.{◌≡◌};

    pub fn new(rows: Vec<T>) -> Listed<T>
        ensures { result ≡ rows.items }
    {
        Listed { rows }
    }

    pub fn as_slice(&self) -> &[T]
        ensures { result.now ≡ self.now }
    {
        &self.rows
    }

    pub fn into_rows(self) -> Vec<T>
        ensures { result.items ≡ self }
    {
        let Listed { rows } = self;
        rows
    }
}

impl<T: PartialEq> PartialEq for Listed<T> {
    ghost use Rattle.std.specs.Cmp.Lexicographic.{pointwise, lists_per};

    ghost eq = { pointwise T.eq };

    ghost laws = { lists_per T.laws };

    fn eq(&self, other: &Listed<T>) -> bool {
        self.rows == other.rows
    }
}

impl<T: Eq> Eq for Listed<T> {
    ghost use Rattle.std.specs.Cmp.Lexicographic.{lists_equiv};

    ghost laws = { lists_equiv T.Eq.laws };
}
