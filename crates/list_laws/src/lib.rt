//! Laws of plain lists, options and numbers that the proofs of several crates cite.
#![tactic(auto)]
