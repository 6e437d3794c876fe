//! Assets, and what was given away.

ghost use Rattle.facts_core.specs.Facts.{asset_at, asset_data, disposal_at, disposal_data};

use days_core::Day;
use json_form::{Exact, FormFault, Formed, Members, Written, closed, field, object};
use plain_data::NoMemory;
use serde_json::Value;
use std::alloc::Global;

/// Something of value that the household owns.
#[derive(Clone, Copy, Debug, PartialEq, Eq)]
pub struct Asset {
    /// What it is worth, in whole dollars.
    pub value: u32,
    /// What it yields, in whole dollars a year.
    pub income: u32,
}

/// Something of value that the household gave away or sold.
#[derive(Clone, Copy, Debug, PartialEq, Eq)]
pub struct Disposal {
    pub day: Day,
    /// What it was worth, in whole dollars.
    pub value: u32,
    /// What the household got for it, in whole dollars.
    pub received: u32,
}

impl Formed for Asset {
    ghost form = { asset_at };

    #[tactic(auto, unfolding(crate::specs::Facts::asset_at))]
    fn of_value(alloc: Global, value: &Value) -> Result<Asset, FormFault> {
        object(alloc, value)?;
        let worth = field(alloc, value, "value")?;
        let income = field(alloc, value, "income")?;
        let asset = Asset {
            value: worth,
            income,
        };
        closed(alloc, value, &["income", "value"], asset)
    }
}

impl Formed for Disposal {
    ghost form = { disposal_at };

    #[tactic(auto, unfolding(crate::specs::Facts::disposal_at))]
    fn of_value(alloc: Global, value: &Value) -> Result<Disposal, FormFault> {
        object(alloc, value)?;
        let day = field(alloc, value, "day")?;
        let worth = field(alloc, value, "value")?;
        let received = field(alloc, value, "received")?;
        let disposal = Disposal {
            day,
            value: worth,
            received,
        };
        closed(alloc, value, &["day", "received", "value"], disposal)
    }
}

impl Written for Asset {
    ghost written = { asset_data };

    #[tactic(auto, unfolding(crate::specs::Facts::asset_data))]
    fn to_value(&self, alloc: Global) -> Result<Exact, NoMemory> {
        let members = Members::new(alloc)
            .with("income", &self.income)?
            .with("value", &self.value)?;
        Ok(members.done())
    }
}

impl Written for Disposal {
    ghost written = { disposal_data };

    #[tactic(auto, unfolding(crate::specs::Facts::disposal_data))]
    fn to_value(&self, alloc: Global) -> Result<Exact, NoMemory> {
        let members = Members::new(alloc)
            .with("day", &self.day)?
            .with("received", &self.received)?
            .with("value", &self.value)?;
        Ok(members.done())
    }
}
