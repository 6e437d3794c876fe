//! Records in JSON.

ghost use Rattle.std.specs.Prelude.{◌≡◌, IfOk};
ghost use Rattle.serde_json.specs.View.{view};
ghost use Rattle.json_form.specs.Written.{or_null};
ghost use Rattle.reply_text.specs.Answers.{kind_word, dates_data, record_data};

use json_form::{Exact, Members};
use plain_data::NoMemory;
use record_history::{Dates, Kind, Record};
use std::alloc::Global;

/// The fields of a record.
pub fn record_value(alloc: Global, held: &Record) -> Result<Exact, NoMemory>
    ensures { IfOk result (λ exact. view exact.value ≡ record_data held.now) }
{
    // From the last name to the first, so that each is put before all others and no proof has to look through them.
    let members = Members::new(alloc)
        .with("utility", &held.rents.utility)?
        .with("unit", &held.unit)?
        .with("ttp", &held.ttp)?
        .with("size", &held.size)?
        .with("persons", &held.persons)?
        .with("number", &held.number)?
        .with("kind", &kind_word(held.kind))?
        .with("household", &held.household)?
        .with("from", &held.from)?
        .with("extremely", &held.extremely)?
        .with_value("dates", dates_value(alloc, held.dates)?)?
        .with("corrects", &held.corrects)?
        .with("contract_rent", &held.rents.contract_rent)?
        .with("assistance", &held.assistance)?
        .with("annual", &held.annual)?
        .with("adjusted", &held.adjusted)?
        .with("act", &held.act)?;
    Ok(members.done())
}

fn kind_word(kind: Kind) -> &'static str
    ensures { result.now ≡ kind_word kind }
{
    match kind {
        Kind::MI => "MI",
        Kind::IC => "IC",
        Kind::AR => "AR",
        Kind::IR => "IR",
        Kind::GR => "GR",
        Kind::UT => "UT",
        Kind::MO => "MO",
        Kind::TM => "TM",
        Kind::WD => "WD",
    }
}

fn dates_value(alloc: Global, dates: Option<Dates>) -> Result<Exact, NoMemory>
    ensures { IfOk result (λ exact. view exact.value ≡ or_null dates_data dates) }
{
    match dates {
        Some(dates) => {
            let members = Members::new(alloc)
                .with("done", &dates.done)?
                .with("event", &dates.event)?
                .with("notice", &dates.notice)?;
            Ok(members.done())
        }
        None => Ok(Exact::null()),
    }
}
