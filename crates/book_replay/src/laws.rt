//! That doing acts again tells exactly which tables are an office's.

ghost use Rattle.book_replay.specs.Replay.{ReplayBegins, ReplayGoesOn, ReplayStops, ReplayEnds, ReplayedIsGiven, ValidIsReached, ReachedIsValid};

use office_laws::{appended_is_accepted, batches_follow, books_are_kept};

/// The acts of tables are done again one after another, until one's rows differ. It does nothing.
pub fn replay_is_kept()
    ensures begins { ReplayBegins }
    ensures goes_on { ReplayGoesOn }
    ensures stops { ReplayStops }
    ensures ends { ReplayEnds }
    ensures given { ReplayedIsGiven }
{
    appended_is_accepted();
}

/// Tables without a fault are those that an office comes to act by act. It does nothing.
pub fn valid_is_reached()
    ensures { ValidIsReached }
{
    appended_is_accepted();
}

/// What an office comes to act by act has no fault. It does nothing.
pub fn reached_is_valid()
    ensures { ReachedIsValid }
{
    appended_is_accepted();
    batches_follow();
    books_are_kept();
}
