//! Tests of the hosts, by public calls alone.
#![tactic(auto)]

#[cfg(test)]
mod caches;
#[cfg(test)]
mod called;
#[cfg(test)]
mod relays;
#[cfg(test)]
mod servers;
