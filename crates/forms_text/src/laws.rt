//! What the form tells of a closing.

ghost use Rattle.forms_text.specs.Laws.{ColumnsLineUp, EachLineOnce, TotalsAreSums};

/// What the form tells of a closing: each of its lines in one row of one schedule, and above them what they sum to. It does
/// nothing.
pub fn forms_tell_each_line()
    ensures once { EachLineOnce }
    ensures sums { TotalsAreSums }
    ensures lined_up { ColumnsLineUp }
{}
