//! Tests of a book's file and of its keeper, over a connection in memory.
#![tactic(auto)]

#[cfg(test)]
mod keeping;
#[cfg(test)]
mod statements;
