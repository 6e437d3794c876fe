//! What the income of a family comes to in a year, by 24 CFR 5.609.
#![tactic(auto)]

mod assets;
mod earned;
mod figures;
mod income;
mod laws;
mod members;
mod unearned;

pub use assets::net_assets;
pub use earned::counted_earned;
pub use figures::Annual;
pub use income::annual_income;
pub use laws::income_is_of_whole_list;
pub use members::{is_head_or_partner, is_under, member_at};
