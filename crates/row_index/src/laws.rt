//! Laws of an index over rows.

ghost use Rattle.row_index.specs.Laws.{IndexFinds, IndexGrows, RequestKeysDiffer};

/// The row at the place that the index gives is the first row of that key. It does nothing.
pub fn index_finds<Row>()
    ensures { IndexFinds Row }
{}

/// The index of one row more is the index with an entry more. It does nothing.
pub fn index_grows<Row>()
    ensures { IndexGrows Row }
{}

/// Requests have the same key just where clerk and number are the same. It does nothing.
pub fn request_keys_differ()
    ensures { RequestKeysDiffer }
{}
