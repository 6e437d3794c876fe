//! Tests of a book's file that is opened again after a stop.
#![tactic(auto)]

#[cfg(test)]
mod stops;
