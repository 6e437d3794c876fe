//! Laws of the latest row and of the first day.

ghost use Rattle.row_choice.specs.Latest.{LatestIsLast};
ghost use Rattle.row_choice.specs.FirstDay.{FirstDayIsABeginning};

/// The latest of the rows that pass is one of them, and none of them comes after it. It does nothing.
pub fn latest_is_last<Row>()
    ensures { LatestIsLast Row }
{}

/// The first day on which a test passes is a day on which something begins, or the first of all. It does nothing.
pub fn first_day_is_a_beginning()
    ensures { FirstDayIsABeginning }
{}
