//! Tests of relays, by public calls alone.
#![tactic(auto)]

#[cfg(test)]
mod reports;
#[cfg(test)]
mod sites;
