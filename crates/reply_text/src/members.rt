//! Objects of one or two members.

ghost use Rattle.std.specs.Prelude.{◌≡◌, IfOk};
ghost use Rattle.serde_json.specs.View.{members_view};
ghost use Rattle.serde_json.specs.Data.{put};
ghost use Rattle.reply_text.specs.Refusals.{one_member};

use json_form::{Members, Written};
use plain_data::NoMemory;
use std::alloc::Global;

/// One member.
pub fn one<T: Written>(alloc: Global, name: &str, value: &T) -> Result<Members, NoMemory>
    ensures { IfOk result (λ all. members_view all.members.entries ≡ one_member name.now (T.written value.now)) }
{
    Members::new(alloc).with(name, value)
}

/// Two members, of two names.
pub fn two<T: Written, U: Written>(
    alloc: Global,
    name: &str,
    value: &T,
    other_name: &str,
    other: &U,
) -> Result<Members, NoMemory>
    ensures { IfOk result (λ all. members_view all.members.entries
        ≡ put other_name.now (U.written other.now) (one_member name.now (T.written value.now))) }
{
    one(alloc, name, value)?.with(other_name, other)
}
