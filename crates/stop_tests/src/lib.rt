//! Tests of what a machine that stops leaves of a book in a file to a desk.
#![tactic(auto)]

#[cfg(test)]
mod six_acts;
#[cfg(test)]
mod stops;
