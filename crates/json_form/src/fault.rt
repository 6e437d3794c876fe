//! Why a value isn't read.

ghost use Rattle.std.specs.Prelude.{◌≡◌};
ghost use Rattle.json_form.specs.declared.fault.FormFault.TheVariants.{NoMemory};

use crate::path::Path;
use std::alloc::{AllocError, AllocFailed, Global};

/// Why a value was not read.
#[derive(Debug, PartialEq, Eq, Drop)]
pub enum FormFault {
    /// The path of the first place that doesn't fit, seen from the value.
    BadField(Path),
    /// Memory ran out.
    NoMemory,
}

impl FormFault {
    ghost use Rattle.std.specs.Prelude.{[]};
    ghost use Rattle.json_form.specs.Gives.{IsUnder};

    /// The value itself doesn't fit.
    pub fn here(alloc: Global) -> FormFault
        ensures { result ≡ FormFault.BadField [] }
    {
        FormFault::BadField(Path::whole(alloc))
    }

    /// The same fault, seen from the value in which that name or position leads here.
    pub fn under(self, alloc: Global, step: &str) -> FormFault
        ensures { IsUnder step.now self result }
    {
        match self {
            FormFault::BadField(path) => match path.under(alloc, step) {
                Ok(longer) => FormFault::BadField(longer),
                Err(_) => FormFault::NoMemory,
            },
            FormFault::NoMemory => FormFault::NoMemory,
        }
    }
}

impl From<AllocError> for FormFault {
    ghost from_gives = { λ _ fault. fault ≡ NoMemory };

    fn from(_error: AllocError) -> FormFault {
        FormFault::NoMemory
    }
}

impl<T: Drop> From<AllocFailed<T>> for FormFault {
    ghost from_gives = { λ _ fault. fault ≡ NoMemory };

    fn from(_error: AllocFailed<T>) -> FormFault {
        FormFault::NoMemory
    }
}
