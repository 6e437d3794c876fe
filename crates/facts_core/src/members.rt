//! Members.

ghost use Rattle.std.specs.Prelude.{◌≡◌};
ghost use Rattle.serde_json.specs.Data.{string};
ghost use Rattle.json_form.specs.Form.{one_of};
ghost use Rattle.facts_core.specs.Facts.{relations, relation_word, member_at, member_data};

use days_core::Day;
use json_form::{
    Exact, FormFault, Formed, Members, Written, closed, field, object, one_of, optional_field,
};
use plain_data::NoMemory;
use serde_json::Value;
use std::alloc::Global;

/// What a member is to the household.
#[derive(Clone, Copy, Debug, PartialEq, Eq)]
pub enum Relation {
    Head,
    Spouse,
    /// A co-head.
    Cohead,
    Other,
    /// A live-in aide.
    Aide,
}

/// A person who lives in the unit.
#[derive(Clone, Copy, Debug, PartialEq, Eq)]
pub struct Member {
    pub relation: Relation,
    /// The day of birth.
    pub born: Day,
    pub disabled: bool,
    /// A full-time student.
    pub student: bool,
    /// The disability assistance makes this member's earning possible.
    pub helped: bool,
    /// The child care makes this member's earning possible.
    pub cared: bool,
    /// Eligible for assistance (24 CFR 5.520). A live-in aide's flag has no meaning.
    pub eligible: bool,
}

impl Formed for Relation {
    ghost form = { one_of relations };

    fn of_value(alloc: Global, value: &Value) -> Result<Relation, FormFault> {
        let relations = [
            ("Head", Relation::Head),
            ("Spouse", Relation::Spouse),
            ("Cohead", Relation::Cohead),
            ("Other", Relation::Other),
            ("Aide", Relation::Aide),
        ];
        one_of(alloc, value, &relations)
    }
}

impl Formed for Member {
    ghost form = { member_at };

    #[tactic(auto, unfolding(crate::specs::Facts::member_at))]
    fn of_value(alloc: Global, value: &Value) -> Result<Member, FormFault> {
        object(alloc, value)?;
        let relation = field(alloc, value, "relation")?;
        let born = field(alloc, value, "born")?;
        let disabled = field(alloc, value, "disabled")?;
        let student = field(alloc, value, "student")?;
        let helped = field(alloc, value, "helped")?;
        let cared = field(alloc, value, "cared")?;
        let eligible: Option<bool> = optional_field(alloc, value, "eligible")?;
        let names = [
            "born", "cared", "disabled", "eligible", "helped", "relation", "student",
        ];
        let member = Member {
            relation,
            born,
            disabled,
            student,
            helped,
            cared,
            eligible: eligible.unwrap_or(true),
        };
        closed(alloc, value, &names, member)
    }
}

impl Written for Relation {
    ghost written = { λ relation. string (relation_word relation) };

    fn to_value(&self, alloc: Global) -> Result<Exact, NoMemory> {
        relation_word(*self).to_value(alloc)
    }
}

fn relation_word(relation: Relation) -> &'static str
    ensures { result.now ≡ relation_word relation }
{
    match relation {
        Relation::Head => "Head",
        Relation::Spouse => "Spouse",
        Relation::Cohead => "Cohead",
        Relation::Other => "Other",
        Relation::Aide => "Aide",
    }
}

impl Written for Member {
    ghost written = { member_data };

    #[tactic(auto, unfolding(crate::specs::Facts::member_data))]
    fn to_value(&self, alloc: Global) -> Result<Exact, NoMemory> {
        let members = Members::new(alloc)
            .with("born", &self.born)?
            .with("cared", &self.cared)?
            .with("disabled", &self.disabled)?
            .with("helped", &self.helped)?
            .with("relation", &self.relation)?
            .with("student", &self.student)?;
        if self.eligible {
            return Ok(members.done());
        }
        Ok(members.with("eligible", &false)?.done())
    }
}
