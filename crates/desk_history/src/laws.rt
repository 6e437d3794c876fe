//! What follows of the rule of a history.

ghost use Rattle.desk_history.specs.Laws.{EntriesAreOfTheNumber, HeldBooksGrow, OneBeginsTheOther, OthersStay, PassesGoOn, NotesAreLearned, NewNumbersHaveNoEntries};

/// The entries of a number are exactly the rows of that session, in their order. So are its tries, of what was tried. It does
/// nothing.
pub fn entries_are_those_of_the_number()
    ensures { EntriesAreOfTheNumber }
{}

/// While a pass is held, the book grows by its rows alone, and what was tried by its tries. It does nothing.
pub fn held_books_grow()
    ensures { HeldBooksGrow }
{}

/// Of what two passes know, the one begins the other. It does nothing.
pub fn one_begins_the_other()
    ensures { OneBeginsTheOther }
{}

/// A pass is left what it is by the steps of others. It does nothing.
pub fn others_stay()
    ensures { OthersStay }
{}

/// What a pass knows only rises. Of its own entries it has just those that were appended, and of its tries just those that were
/// made. It does nothing.
pub fn passes_go_on()
    ensures { PassesGoOn }
{}

/// A pass learns what a note says, and no more than the book has. It does nothing.
pub fn notes_are_learned()
    ensures { NotesAreLearned }
{}

/// A new number has no entries. It does nothing.
pub fn new_numbers_have_no_entries()
    ensures { NewNumbersHaveNoEntries }
{}
