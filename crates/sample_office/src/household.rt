//! The sample's household.

use days_core::Day;
use facts_core::{Facts, Income, IncomeKind, Member, Relation};
use plain_data::{Listed, NoMemory};
use std::alloc::Global;

/// A person who is eligible, not disabled and no student, and whose care costs nothing.
pub fn member(relation: Relation, born: Day) -> Member {
    Member {
        relation,
        born,
        disabled: false,
        student: false,
        helped: false,
        cared: false,
        eligible: true,
    }
}

/// What the member of that place, counted from 0, has in a year.
pub fn income(member: u32, kind: IncomeKind, annual: u32) -> Income {
    Income {
        member,
        kind,
        annual,
    }
}

/// The facts of a household that has these incomes and nothing else, and spends nothing.
pub fn facts(alloc: Global, members: &[Member], incomes: &[Income]) -> Result<Facts, NoMemory> {
    let members = Listed::new(members.to_vec(alloc)?);
    let incomes = Listed::new(incomes.to_vec(alloc)?);
    Ok(Facts {
        members,
        incomes,
        assets: Listed::new(Vec::new(alloc)),
        disposals: Listed::new(Vec::new(alloc)),
        care_work: 0,
        care_school: 0,
        disability: 0,
        medical: 0,
        welfare: 0,
        exempt: false,
    })
}
