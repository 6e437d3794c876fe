//! When a new act on a book that an office comes to is accepted.

ghost use Rattle.office_laws.specs.Allowed.{ActsAreAllowed};
ghost use Rattle.office_laws.specs.Accepting.{ReachedBooksAreSound, AcceptanceOfReachedBooks};
ghost use Rattle.office_laws.specs.Turns.{TurnsArePlain};

/// All that an office knows by a book that it comes to is sound. It does nothing.
pub fn reached_books_are_sound()
    ensures { ReachedBooksAreSound }
{}

/// So a new call on it whose lines fit is accepted exactly where no cause stands against it. It does nothing.
pub fn acceptance_of_reached_books()
    ensures { AcceptanceOfReachedBooks }
{}

/// And no cause stood against any act of a book when it was accepted. It does nothing.
pub fn acts_are_allowed()
    ensures { ActsAreAllowed }
{}

/// Of the causes, that another is next for a unit, is said by who would move, who waits and what the year counts. It does
/// nothing.
pub fn turns_are_plain()
    ensures { TurnsArePlain }
{}
