//! Tests of a household's facts, of what its income, deductions and payment come to, of rents and limits, and of the days
//! that are due.
#![tactic(auto)]

#[cfg(test)]
mod days_due;
#[cfg(test)]
mod deductions;
#[cfg(test)]
mod figures;
#[cfg(test)]
mod household_facts;
#[cfg(test)]
mod incomes;
#[cfg(test)]
mod rent_tables;
