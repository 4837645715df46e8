//! Tests of the server, by public calls alone.
#![tactic(auto)]

#[cfg(test)]
mod conversations;
#[cfg(test)]
mod faults;
#[cfg(test)]
mod last_version;
#[cfg(test)]
mod refusals;
#[cfg(test)]
mod talk;
#[cfg(test)]
mod texts;
