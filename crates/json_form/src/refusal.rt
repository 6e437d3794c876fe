//! How a refusal is written.

ghost use Rattle.std.specs.Prelude.{◌≡◌, IfOk};
ghost use Rattle.serde_json.specs.View.{view, members_view};
ghost use Rattle.serde_json.specs.Data.{object};
ghost use Rattle.json_form.specs.Written.{refused, bad_form_data};

use crate::exact::Exact;
use crate::members::Members;
use plain_data::NoMemory;
use std::alloc::Global;

/// The refusal for that cause.
pub fn refused(alloc: Global, cause: Members) -> Result<Exact, NoMemory>
    ensures { IfOk result (λ exact. view exact.value ≡ refused (object (members_view cause.members.entries))) }
{
    let members = Members::new(alloc).with_value("refused", cause.done())?;
    Ok(members.done())
}

/// The refusal of what isn't of the form, by the path of the first place that doesn't fit.
pub fn bad_form(alloc: Global, path: &str) -> Result<Exact, NoMemory>
    ensures { IfOk result (λ exact. view exact.value ≡ bad_form_data path.now) }
{
    let cause = Members::new(alloc)
        .with("kind", &"Form")?
        .with("path", &path)?;
    refused(alloc, cause)
}
