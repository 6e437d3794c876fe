//! Acts on a household that there is: as members of JSON, and read of a value.
#![tactic(auto)]

mod changes;

pub use changes::{
    ask_transfer_members, ask_transfer_of, change_word, household_members, household_names,
    household_of,
};
