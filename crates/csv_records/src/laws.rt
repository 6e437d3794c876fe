//! The law that a text has one list of records.

ghost use Rattle.csv_records.specs.Laws.{HasOneListOfRecords};

/// Whatever list of records the reader's steps take out of a text is the one list of its records. It does nothing.
pub fn text_has_one_list_of_records()
    ensures { HasOneListOfRecords }
{}
