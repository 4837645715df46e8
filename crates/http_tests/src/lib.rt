//! Tests of HTTP at both ends, by public calls alone.
#![tactic(auto)]

#[cfg(test)]
mod client;
#[cfg(test)]
mod conversations;
#[cfg(test)]
mod echo;
#[cfg(test)]
mod limits;
