//! Tests of sessions over HTTP at a desk: cut at each byte, of two clerks in turn, and where something else happens meanwhile.
#![tactic(auto)]

#[cfg(test)]
mod cuts;
#[cfg(test)]
mod meanwhile;
#[cfg(test)]
mod midnight;
#[cfg(test)]
mod parted;
#[cfg(test)]
mod sessions;
#[cfg(test)]
mod two_clerks;
