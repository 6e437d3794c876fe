//! Tests of texts, days, forms, streams and lines, of the index, and of the shares and payments that need nothing else.
#![tactic(auto)]

#[cfg(test)]
mod days;
#[cfg(test)]
mod forms;
#[cfg(test)]
mod index;
#[cfg(test)]
mod lines;
#[cfg(test)]
mod payments;
#[cfg(test)]
mod shares;
#[cfg(test)]
mod streams;
#[cfg(test)]
mod texts;
