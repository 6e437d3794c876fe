//! Tests of the words of the command line, and of applicants and records of CSV.
#![tactic(auto)]

#[cfg(test)]
mod applicants;
#[cfg(test)]
mod serving;
#[cfg(test)]
mod words;
