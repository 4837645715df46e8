//! Tests of the door and the link in memory, by public calls alone.
#![tactic(auto)]

#[cfg(test)]
mod doors;
#[cfg(test)]
mod links;
