//! Tests of an office over HTTP: of what a session answers, and of the server over links, with keepers in memory.
#![tactic(auto)]

#[cfg(test)]
mod faults;
#[cfg(test)]
mod fronts;
#[cfg(test)]
mod gated;
#[cfg(test)]
mod links;
#[cfg(test)]
mod serving;
