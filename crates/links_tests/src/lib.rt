//! Tests of listeners, in memory and over TCP.
#![tactic(auto)]

#[cfg(test)]
mod memory;
#[cfg(test)]
mod tcp;
