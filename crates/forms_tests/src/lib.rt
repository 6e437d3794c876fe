//! Tests of what an office prints, and of the made office.
#![tactic(auto)]

#[cfg(test)]
mod forms;
#[cfg(test)]
mod made;
#[cfg(test)]
mod offices;
