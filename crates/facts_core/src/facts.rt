//! The facts of a household as a whole.

ghost use Rattle.serde_json.specs.View.{view};
ghost use Rattle.json_form.specs.Gives.{Gives};
ghost use Rattle.facts_core.specs.Facts.{facts_fields_at, facts_at, facts_data};

use crate::incomes::Income;
use crate::members::Member;
use crate::property::{Asset, Disposal};
use json_form::{Exact, FormFault, Formed, Members, Written, closed, field, object};
use plain_data::{Listed, NoMemory};
use serde_json::Value;
use std::alloc::Global;

/// What a household's rent is assessed from. Amounts are whole dollars: those of costs for the year, the welfare rent
/// for the month.
#[derive(Debug, PartialEq, Eq)]
pub struct Facts {
    /// The members, numbered from 0.
    pub members: Listed<Member>,
    pub incomes: Listed<Income>,
    pub assets: Listed<Asset>,
    pub disposals: Listed<Disposal>,
    /// The cost of child care that makes earning possible.
    pub care_work: u32,
    /// The cost of child care that makes schooling possible.
    pub care_school: u32,
    /// The cost of disability assistance.
    pub disability: u32,
    pub medical: u32,
    /// The rent that the welfare agency sets for the household, or 0.
    pub welfare: u32,
    /// Free from the minimum rent.
    pub exempt: bool,
}

// By hand, so that a value with facts in it goes out of use by one call, and no proof has a case for each list.
impl Drop for Facts {
    fn drop(self) {
        let Facts {
            members: _,
            incomes: _,
            assets: _,
            disposals: _,
            care_work: _,
            care_school: _,
            disability: _,
            medical: _,
            welfare: _,
            exempt: _,
        } = self;
    }
}

impl Formed for Facts {
    ghost form = { facts_at };

    #[tactic(auto, unfolding(crate::specs::Facts::facts_at))]
    fn of_value(alloc: Global, value: &Value) -> Result<Facts, FormFault> {
        object(alloc, value)?;
        let facts = fields_of(alloc, value)?;
        let names = [
            "assets",
            "care_school",
            "care_work",
            "disability",
            "disposals",
            "exempt",
            "incomes",
            "medical",
            "members",
            "welfare",
        ];
        closed(alloc, value, &names, facts)
    }
}

#[tactic(auto, unfolding(crate::specs::Facts::facts_fields_at))]
fn fields_of(alloc: Global, value: &Value) -> Result<Facts, FormFault>
    ensures { Gives (λ facts. facts) result (facts_fields_at (view value.now)) }
{
    let members = field(alloc, value, "members")?;
    let incomes = field(alloc, value, "incomes")?;
    let assets = field(alloc, value, "assets")?;
    let disposals = field(alloc, value, "disposals")?;
    let care_work = field(alloc, value, "care_work")?;
    let care_school = field(alloc, value, "care_school")?;
    let disability = field(alloc, value, "disability")?;
    let medical = field(alloc, value, "medical")?;
    let welfare = field(alloc, value, "welfare")?;
    let exempt = field(alloc, value, "exempt")?;
    Ok(Facts {
        members,
        incomes,
        assets,
        disposals,
        care_work,
        care_school,
        disability,
        medical,
        welfare,
        exempt,
    })
}

impl Written for Facts {
    ghost written = { facts_data };

    #[tactic(auto, unfolding(crate::specs::Facts::facts_data))]
    fn to_value(&self, alloc: Global) -> Result<Exact, NoMemory> {
        let members = Members::new(alloc)
            .with("assets", &self.assets)?
            .with("care_school", &self.care_school)?
            .with("care_work", &self.care_work)?
            .with("disability", &self.disability)?
            .with("disposals", &self.disposals)?
            .with("exempt", &self.exempt)?
            .with("incomes", &self.incomes)?
            .with("medical", &self.medical)?
            .with("members", &self.members)?
            .with("welfare", &self.welfare)?;
        Ok(members.done())
    }
}
