//! Tests of the records of households, of who may live where and is next, of closings, and of how a book is kept and
//! searched.
#![tactic(auto)]

#[cfg(test)]
mod closings;
#[cfg(test)]
mod finding;
#[cfg(test)]
mod histories;
#[cfg(test)]
mod keepers;
#[cfg(test)]
mod tables;
#[cfg(test)]
mod tenancies;
#[cfg(test)]
mod waiting;
