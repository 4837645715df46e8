//! Tests of the real objects, by public calls alone.
#![tactic(auto)]

#[cfg(test)]
mod commands;
#[cfg(test)]
mod devices;
#[cfg(test)]
mod doors;
#[cfg(test)]
mod looks;
#[cfg(test)]
mod machine;
#[cfg(test)]
mod programs;
