//! Tests of a desk that several sessions share.
#![tactic(auto)]

#[cfg(test)]
mod faults;
#[cfg(test)]
mod household;
#[cfg(test)]
mod passes;
#[cfg(test)]
mod threads;
