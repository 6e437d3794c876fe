//! The field of preferences.

ghost use Rattle.std.specs.Prelude.{◌≡◌, ◌==◌, IfOk, map, option_map};
ghost use Rattle.std.specs.List.{slice_split};
ghost use Rattle.applicant_rows.specs.Applicants.{preferences_from, numbers_from, is_separator};

use numerals::number_between;
use plain_data::NoMemory;
use std::alloc::{AllocError, Global};

/// The codes of the preferences that the field names.
pub fn preferences_of(alloc: Global, field: &[u8]) -> Result<Option<Vec<u32>>, NoMemory>
    ensures { IfOk result (λ found. option_map (λ codes. codes.items) found ≡ preferences_from field.now) }
{
    if field.is_empty() {
        return Ok(Some(Vec::new(alloc)));
    }
    let parts = parts_of(alloc, field)?;
    numbers_of(alloc, &parts)
}

/// The parts of a field between its separators.
fn parts_of<'a>(alloc: Global, field: &'a [u8]) -> Result<Vec<&'a [u8]>, AllocError>
    ensures { IfOk result (λ parts. map (λ part. part.now) parts.items ≡ slice_split is_separator field.now) }
{
    field.split(|byte| *byte == b';').collect(alloc)
}

/// The numbers that the parts write, where there are few enough.
fn numbers_of(alloc: Global, parts: &[&[u8]]) -> Result<Option<Vec<u32>>, NoMemory>
    ensures { IfOk result (λ found. option_map (λ codes. codes.items) found ≡ numbers_from (map (λ part. part.now) parts.now)) }
{
    if parts.len() > 16 {
        return Ok(None);
    }
    let mut numbers = Vec::new(alloc);
    for part in parts {
        match number_between(part, 1, 16) {
            Some(number) => numbers.push(number)?,
            None => return Ok(None),
        }
    }
    Ok(Some(numbers))
}
