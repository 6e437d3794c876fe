//! Units, applicants, and each applicant into its unit.

ghost use Rattle.std.specs.Prelude.{◌≡◌, ◌++◌, OnOk};
ghost use Rattle.generator.specs.Acts.{admission, application, entering_acts, unit_added};

use crate::MadeAct;
use crate::dates::opening_day;
use crate::each::{PerUnit, ask_each};
use crate::households::{earning, name_of, wages_of};
use book_rows::{AdmitAct, ApplyAct, Command, UnitAct};
use plain_data::{Listed, NoMemory};
use std::alloc::Global;

/// Asks that each unit gets its household.
pub fn ask_entering(alloc: Global, acts: &mut Vec<MadeAct>, numbers: &[u16]) -> Result<(), NoMemory>
    ensures { OnOk result (acts.new.items ≡ acts.old.items ++ entering_acts numbers.now) }
{
    ask_each(alloc, acts, numbers, &UnitAdded)?;
    ask_each(alloc, acts, numbers, &Application)?;
    ask_each(alloc, acts, numbers, &Admission)
}

#[derive(Drop)]
struct UnitAdded;

impl PerUnit for UnitAdded {
    ghost asked = { λ _. unit_added };

    fn act(&self, alloc: Global, number: u16) -> Result<MadeAct, NoMemory> {
        let unit = UnitAct {
            name: name_of(alloc, b'U', number)?,
            group: 1,
            bedrooms: 1,
            accessible: false,
        };
        Ok(MadeAct {
            day: opening_day(),
            command: Command::Unit(unit),
        })
    }
}

#[derive(Drop)]
struct Application;

impl PerUnit for Application {
    ghost asked = { λ _. application };

    fn act(&self, alloc: Global, number: u16) -> Result<MadeAct, NoMemory> {
        let apply = ApplyAct {
            name: name_of(alloc, b'H', number)?,
            size: 1,
            persons: 1,
            preferences: Listed::new(Vec::new(alloc)),
            accessible: false,
            annual: wages_of(number),
        };
        Ok(MadeAct {
            day: opening_day(),
            command: Command::Apply(apply),
        })
    }
}

#[derive(Drop)]
struct Admission;

impl PerUnit for Admission {
    ghost asked = { λ _. admission };

    fn act(&self, alloc: Global, number: u16) -> Result<MadeAct, NoMemory> {
        let admit = AdmitAct {
            applicant: number.into(),
            unit: number.into(),
            from: opening_day(),
            facts: earning(alloc, wages_of(number))?,
        };
        Ok(MadeAct {
            day: opening_day(),
            command: Command::Admit(admit),
        })
    }
}
