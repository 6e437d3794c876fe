//! Objects, written member by member.

ghost use Rattle.std.specs.Prelude.{◌≡◌, false, IfOk};
ghost use Rattle.serde_json.specs.View.{view, members_view};
ghost use Rattle.serde_json.specs.Data.{object, no_members, put};
ghost use Rattle.serde_json.specs.Written.{members_have_float};

use crate::exact::Exact;
use crate::written::Written;
use plain_data::NoMemory;
use serde_json::{Map, Value};
use std::alloc::Global;

/// The members of an object that is written, in the byte order of their names. None holds a float.
#[derive(Drop)]
pub struct Members {
    alloc: Global,
    pub members: Map<String, Value>,
    pub ghost no_float: { members_have_float (members_view members.entries) ≡ false },
}

impl Members {
    /// None.
    pub fn new(alloc: Global) -> Members
        ensures { members_view result.members.entries ≡ no_members }
    {
        Members {
            alloc,
            members: Map::new(alloc),
        }
    }

    /// With a member more, in the place of an earlier one of that name.
    pub fn with<T: Written>(self, name: &str, value: &T) -> Result<Members, NoMemory>
        ensures { IfOk result (λ all. members_view all.members.entries
            ≡ put name.now (T.written value.now) (members_view self.members.entries)) }
    {
        let value = value.to_value(self.alloc)?;
        self.with_value(name, value)
    }

    /// The same for a value that is written already.
    pub fn with_value(self, name: &str, value: Exact) -> Result<Members, NoMemory>
        ensures { IfOk result (λ all. members_view all.members.entries
            ≡ put name.now (view value.value) (members_view self.members.entries)) }
    {
        let Members { alloc, mut members } = self;
        serde_json::put(&mut members, alloc, name, value.into_value())?;
        Ok(Members { alloc, members })
    }

    /// The object of these members.
    pub fn done(self) -> Exact
        ensures { view result.value ≡ object (members_view self.members.entries) }
    {
        Exact {
            value: Value::Object(self.members),
        }
    }
}
