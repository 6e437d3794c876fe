//! The order of records.

ghost use Rattle.std.specs.Prelude.{◌≡◌, option_copied};
ghost use Rattle.record_history.specs.Records.{comes_before, later};

use crate::Record;

/// Whether the first begins earlier, or on the same day and has the smaller number.
pub fn comes_before(first: &Record, second: &Record) -> bool
    ensures { result ≡ comes_before first.now second.now }
{
    first.from < second.from || (first.from == second.from && first.number < second.number)
}

/// The one of the two that comes last.
pub fn later<'a>(latest: Option<&'a Record>, held: &'a Record) -> Option<&'a Record>
    ensures { option_copied result ≡ later (option_copied latest.entry) held.now }
{
    match latest {
        Some(best) if !comes_before(best, held) => Some(best),
        _ => Some(held),
    }
}
