//! Records of CSV, as the default reader of `csv` reads them and its default writer writes them.
#![tactic(auto)]

mod laws;
mod reading;
mod writing;

pub use laws::text_has_one_list_of_records;
pub use reading::{RecordsFault, records_under};
pub use writing::{begin_text, text_written, write_record};
