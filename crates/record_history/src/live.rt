//! Which records count.

ghost use Rattle.std.specs.Prelude.{◌≡◌, ◌==◌};
ghost use Rattle.std.specs.List.{list_any};
ghost use Rattle.record_history.specs.Records.{is_live, is_withdrawal};

use crate::{Kind, Record};

/// Whether a record counts, where those of its household are these.
pub fn is_live(records: &[Record], held: &Record) -> bool
    ensures { result ≡ is_live records.now held.now }
{
    !is_withdrawal(held.kind) && !is_corrected(records, held.number)
}

fn is_corrected(records: &[Record], number: u32) -> bool
    ensures { result ≡ list_any (λ other. other.corrects == number) records.now }
{
    records.iter().any(|other| other.corrects == number)
}

pub fn is_withdrawal(kind: Kind) -> bool
    ensures { result ≡ is_withdrawal kind }
{
    match kind {
        Kind::WD => true,
        Kind::MI | Kind::IC | Kind::AR | Kind::IR | Kind::GR | Kind::UT | Kind::MO | Kind::TM =>
            false,
    }
}
