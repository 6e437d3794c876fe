//! The laws of every book that an office makes.

ghost use Rattle.office_laws.specs.Accepted.{AppendedIsAccepted, NewIsAppended};
ghost use Rattle.office_laws.specs.Kept.{BooksAreKept, BatchesFollow};
ghost use Rattle.office_laws.specs.History.{RowsCameByActs};
ghost use Rattle.office_laws.specs.InPlace.{ActsAreInPlace};
ghost use Rattle.office_laws.specs.Upheld.{BooksAreUpheld};
ghost use Rattle.office_laws.specs.Replay.{ActsGiveTheBook, AppendedIsReplayed, ReplayedIsAppended, RowsAreOfTheSession};
ghost use Rattle.office_laws.specs.Replies.{RepliesTellRecords, RepliesStay, RepeatsAreAnswered, FirstRepliesAreGivenAgain};
ghost use Rattle.office_laws.specs.Tenancy.{HouseholdsAreInOrder, NoUnitIsShared};
ghost use Rattle.office_laws.specs.Taken.{NextIsTaken};
ghost use Rattle.office_laws.specs.Terms.{ActsMeetTheirTerms};
ghost use Rattle.office_laws.specs.Certifies.{RecordsCertifyRightly};
ghost use Rattle.office_laws.specs.Eligible.{EligibleMembersAreKept};
ghost use Rattle.office_laws.specs.Conserved.{LinesAreSettled, LinesTotalWhatIsDue};
ghost use Rattle.office_laws.specs.Closing.{KnownAsOfStays, ClosingsNameTheirPairs, RentsAreDoneAtClosings};
ghost use Rattle.office_laws.specs.After.{KnownAfter};
ghost use Rattle.office_laws.specs.InTurn.{TestsAreNumbered, LeastIsTold};

/// What is appended to a book is what its call asks for, and nothing refuses it; and what the office appends for a call is
/// so appended. It does nothing.
pub fn appended_is_accepted()
    ensures accepted { AppendedIsAccepted }
    ensures new { NewIsAppended }
{}

/// What holds of every book: of its acts, of its records and lines, and of what they name. It does nothing.
pub fn books_are_kept()
    ensures { BooksAreKept }
{}

/// What is known by a book with one act more is what is known after that act. It does nothing.
pub fn known_after_each_act()
    ensures { KnownAfter }
{}

/// The rows that are appended are those of one act, and come after those of every earlier act. It does nothing.
pub fn batches_follow()
    ensures { BatchesFollow }
{}

/// Later acts leave the reply to an act, and its call is given that reply again, on the book and on every later one. It
/// does nothing.
pub fn repeats_are_answered()
    ensures stay { RepliesStay }
    ensures answered { RepeatsAreAnswered }
    ensures first { FirstRepliesAreGivenAgain }
{}

/// The reply to an act that made a record tells what it certifies. It does nothing.
pub fn replies_tell_records()
    ensures { RepliesTellRecords }
{}

/// The records of every household are numbered, and those that live are in order. It does nothing.
pub fn households_are_in_order()
    ensures { HouseholdsAreInOrder }
{}

/// On no day do two households have one unit. It does nothing.
pub fn no_unit_is_shared()
    ensures { NoUnitIsShared }
{}

/// Each admission and each transfer takes the candidate who is next for its unit on its first day. It does nothing.
pub fn next_is_taken()
    ensures { NextIsTaken }
{}

/// An act of a household saw all of its records; a change came about, was told and worked on in that order by the act's day;
/// an admission and a resumed certification bring assistance; a correction keeps kind, unit and dates; and a household that
/// moves out is paid through its last day, and no longer. It does nothing.
pub fn acts_meet_their_terms()
    ensures { ActsMeetTheirTerms }
{}

/// Each act of which a record comes makes one, with its unit's rents on its first day, of which it claims no more than
/// there is. What is computed from facts has their persons and incomes and the least payment that covers the four; other
/// records carry over what was certified; and of what the payment leaves of the rents each claims the part of the
/// eligible members. A record begins on its rightful day, a move-in tells extremely low income, the fiscal year counts
/// the move-ins that count, and nobody is overdue at a closing. It does nothing.
pub fn records_certify_rightly()
    ensures { RecordsCertifyRightly }
{}

/// By each act there is one number of eligible members more, of its facts, of the record that its own continues, or 0;
/// and each older record keeps the number that it had. It does nothing.
pub fn eligible_members_are_kept()
    ensures { EligibleMembersAreKept }
{}

/// After any acts the lines of every household and month total what was certified for it at the last closing. It does
/// nothing.
pub fn lines_total_what_is_due()
    ensures settled { LinesAreSettled }
    ensures total { LinesTotalWhatIsDue }
{}

/// What was known as of an act stays known, so that the lines of each closing name their records ever after; and at each
/// closing every record in force has its unit's rents. It does nothing.
pub fn closings_are_in_order()
    ensures stays { KnownAsOfStays }
    ensures lines { ClosingsNameTheirPairs }
    ensures rents { RentsAreDoneAtClosings }
{}

/// Every act, every record and every line of a book was appended by one act on the way to it. It does nothing.
pub fn rows_came_by_acts()
    ensures { RowsCameByActs }
{}

/// A book is what its acts give when they are done again from nothing; what was appended is given again, and the other way
/// round; and the rows of a call have its session. It does nothing.
pub fn acts_give_the_book()
    ensures whole { ActsGiveTheBook }
    ensures each { AppendedIsReplayed }
    ensures back { ReplayedIsAppended }
    ensures session { RowsAreOfTheSession }
{}

/// The refusal of a call is the one of the least number that stands: each test refuses under the number of its place. It
/// does nothing.
pub fn refusals_stand_in_order()
    ensures numbered { TestsAreNumbered }
    ensures least { LeastIsTold }
{}

/// Every act of a book found the book of the acts before it, and appended just its rows there. It does nothing.
pub fn acts_are_in_place()
    ensures { ActsAreInPlace }
{}

/// What every book of an office upholds: its lines total what is certified and name their records; its closings follow
/// each other, each with rents done; its households' records are in order, and no two have one unit; each admission and
/// each transfer took the candidate who was next, and those wait who applied; no cause stood against an act, each met its
/// terms, and its record certifies what it should; and its call gets its first reply again. It does nothing.
pub fn books_are_upheld()
    ensures { BooksAreUpheld }
{
    rows_came_by_acts();
    closings_are_in_order();
    lines_total_what_is_due();
    no_unit_is_shared();
    next_is_taken();
}
