//! Tests of messages, responses, routes and sessions.
#![tactic(auto)]

#[cfg(test)]
mod messages;
#[cfg(test)]
mod responses;
#[cfg(test)]
mod routes;
#[cfg(test)]
mod sessions;
