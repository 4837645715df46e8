//! Tests of the crates that describe machines and look at them, by public calls alone.
#![tactic(auto)]

#[cfg(test)]
mod judged_worlds;
#[cfg(test)]
mod machines;
#[cfg(test)]
mod sources;
#[cfg(test)]
mod sure_machines;
#[cfg(test)]
mod walks;
#[cfg(test)]
mod world_texts;
#[cfg(test)]
mod worlds;
