//! Incomes.

ghost use Rattle.std.specs.Prelude.{◌≡◌};
ghost use Rattle.serde_json.specs.Data.{string};
ghost use Rattle.json_form.specs.Form.{one_of};
ghost use Rattle.facts_core.specs.Facts.{kinds, kind_word, income_at, income_data};

use json_form::{Exact, FormFault, Formed, Members, Written, closed, field, object, one_of};
use plain_data::NoMemory;
use serde_json::Value;
use std::alloc::Global;

/// Where an income comes from.
#[derive(Clone, Copy, Debug, PartialEq, Eq)]
pub enum IncomeKind {
    Wages,
    Business,
    Benefits,
    Welfare,
    Adoption,
    Other,
}

/// An income of a member.
#[derive(Clone, Copy, Debug, PartialEq, Eq)]
pub struct Income {
    /// Whose it is: the member's place in the list, from 0.
    pub member: u32,
    pub kind: IncomeKind,
    /// Whole dollars a year.
    pub annual: u32,
}

impl Formed for IncomeKind {
    ghost form = { one_of kinds };

    fn of_value(alloc: Global, value: &Value) -> Result<IncomeKind, FormFault> {
        let kinds = [
            ("Wages", IncomeKind::Wages),
            ("Business", IncomeKind::Business),
            ("Benefits", IncomeKind::Benefits),
            ("Welfare", IncomeKind::Welfare),
            ("Adoption", IncomeKind::Adoption),
            ("Other", IncomeKind::Other),
        ];
        one_of(alloc, value, &kinds)
    }
}

impl Formed for Income {
    ghost form = { income_at };

    #[tactic(auto, unfolding(crate::specs::Facts::income_at))]
    fn of_value(alloc: Global, value: &Value) -> Result<Income, FormFault> {
        object(alloc, value)?;
        let member = field(alloc, value, "member")?;
        let kind = field(alloc, value, "kind")?;
        let annual = field(alloc, value, "annual")?;
        let income = Income {
            member,
            kind,
            annual,
        };
        closed(alloc, value, &["annual", "kind", "member"], income)
    }
}

impl Written for IncomeKind {
    ghost written = { λ kind. string (kind_word kind) };

    fn to_value(&self, alloc: Global) -> Result<Exact, NoMemory> {
        kind_word(*self).to_value(alloc)
    }
}

fn kind_word(kind: IncomeKind) -> &'static str
    ensures { result.now ≡ kind_word kind }
{
    match kind {
        IncomeKind::Wages => "Wages",
        IncomeKind::Business => "Business",
        IncomeKind::Benefits => "Benefits",
        IncomeKind::Welfare => "Welfare",
        IncomeKind::Adoption => "Adoption",
        IncomeKind::Other => "Other",
    }
}

impl Written for Income {
    ghost written = { income_data };

    #[tactic(auto, unfolding(crate::specs::Facts::income_data))]
    fn to_value(&self, alloc: Global) -> Result<Exact, NoMemory> {
        let members = Members::new(alloc)
            .with("annual", &self.annual)?
            .with("kind", &self.kind)?
            .with("member", &self.member)?;
        Ok(members.done())
    }
}
