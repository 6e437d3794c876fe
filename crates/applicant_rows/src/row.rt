//! One record below the header.

ghost use Rattle.std.specs.Prelude.{◌≡◌, IfOk};
ghost use Rattle.applicant_rows.specs.Applicants.{accessible_from, row_from};
ghost use Rattle.applicant_rows.specs.Fields.{listed};

use crate::fields::Fields;
use crate::preferences::preferences_of;
use book_rows::{ApplyAct, Command, is_name};
use numerals::number_between;
use office_step::Call;
use plain_data::{Listed, NoMemory, Text};
use std::alloc::Global;

/// What a record below the header is.
#[derive(Drop)]
pub enum ImportRow {
    /// An applicant, whom the clerk puts on the waiting list.
    Call(Call),
    /// A record of another form.
    Bad,
}

/// What the fields are, for the clerk of that number.
#[tactic(auto, unfolding(crate::specs::Applicants::row_from))]
pub fn row_of(alloc: Global, clerk: u32, fields: &Fields) -> Result<ImportRow, NoMemory>
    ensures { IfOk result (λ row. row ≡ row_from clerk (listed fields.now)) }
{
    let Some(request) = number_between(fields.request, 1, u32::MAX) else {
        return Ok(ImportRow::Bad);
    };
    if !is_name(fields.name, 40) {
        return Ok(ImportRow::Bad);
    }
    let Some(size) = number_between(fields.size, 1, 12) else {
        return Ok(ImportRow::Bad);
    };
    let Some(persons) = number_between(fields.persons, size, 16) else {
        return Ok(ImportRow::Bad);
    };
    let Some(accessible) = accessible_of(fields.accessible) else {
        return Ok(ImportRow::Bad);
    };
    let Some(annual) = number_between(fields.annual, 0, 9_999_999) else {
        return Ok(ImportRow::Bad);
    };
    let Some(preferences) = preferences_of(alloc, fields.preferences)? else {
        return Ok(ImportRow::Bad);
    };
    let name = Text::new(fields.name.to_vec(alloc)?);
    Ok(ImportRow::Call(Call {
        clerk,
        request,
        command: Command::Apply(ApplyAct {
            name,
            size,
            persons,
            preferences: Listed::new(preferences),
            accessible,
            annual,
        }),
    }))
}

/// `yes` or `no`.
fn accessible_of(field: &[u8]) -> Option<bool>
    ensures { result ≡ accessible_from field.now }
{
    match field {
        b"yes" => Some(true),
        b"no" => Some(false),
        _ => None,
    }
}
