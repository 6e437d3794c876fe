//! Tests of commands' texts, of what the office does with a call, and of what it takes to do an act again.
#![tactic(auto)]

#[cfg(test)]
mod refusals;
#[cfg(test)]
mod replays;
#[cfg(test)]
mod texts;
