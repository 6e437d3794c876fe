//! Laws of legal histories.

ghost use Rattle.shared_desk.specs.History.{HistoriesGoOn, HistoriesWereLegal, HistoriesAreReached, HistoriesAreFew, HistoriesAreUpheld};

use clerk_desk::office_core::office_laws::{acts_give_the_book, books_are_kept, books_are_upheld};

/// What the office appends continues a legal history; and a legal history was legal at each earlier point. It does nothing.
pub fn histories_go_on()
    ensures go_on { HistoriesGoOn }
    ensures were { HistoriesWereLegal }
{
    acts_give_the_book();
}

/// The tables after a legal history are an office's, so that they are no more than it holds, and every law of an office's
/// books holds of them. It does nothing.
pub fn histories_are_reached()
    ensures reached { HistoriesAreReached }
    ensures few { HistoriesAreFew }
    ensures upheld { HistoriesAreUpheld }
{
    acts_give_the_book();
    books_are_kept();
    books_are_upheld();
}
