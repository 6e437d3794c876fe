//! The facts of a household, how they are read of JSON and written as it, and the rules that they keep.
#![tactic(auto)]

mod facts;
mod incomes;
mod json;
mod members;
mod property;
mod rules;

pub use facts::Facts;
pub use incomes::{Income, IncomeKind};
pub use json::{facts_of_value, facts_read_back, value_of_facts};
pub use members::{Member, Relation};
pub use property::{Asset, Disposal};
pub use rules::{broken_rule, eligible_members};
