//! Tests of the texts between JSON and an office.
#![tactic(auto)]

#[cfg(test)]
mod answers;
#[cfg(test)]
mod asking;
#[cfg(test)]
mod replies;
