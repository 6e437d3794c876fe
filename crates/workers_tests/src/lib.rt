//! Tests of workers on one listener, in memory and over TCP.
#![tactic(auto)]

#[cfg(test)]
mod at_once;
#[cfg(test)]
mod every_link;
#[cfg(test)]
mod seat;
#[cfg(test)]
mod tcp;
