//! Laws of what is found.

ghost use Rattle.book_search.specs.Order.{BookStaysInOrder};

/// A book that is reached act by act stands in the order of its acts. It does nothing.
pub fn book_stays_in_order()
    ensures { BookStaysInOrder }
{}
