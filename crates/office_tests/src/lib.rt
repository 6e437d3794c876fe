//! Tests of what an office knows, does, keeps and answers.
#![tactic(auto)]

#[cfg(test)]
mod acts;
#[cfg(test)]
mod answers;
#[cfg(test)]
mod offices;
#[cfg(test)]
mod registers;
#[cfg(test)]
mod telling;
#[cfg(test)]
mod threads;
