//! Tests of the program over a book in a file, on a connection in memory.
#![tactic(auto)]

#[cfg(test)]
mod kept;
#[cfg(test)]
mod stops;
