//! Tests of the crates that evaluate questions and answer lines of them, by public calls alone.
#![tactic(auto)]

#[cfg(test)]
mod described;
#[cfg(test)]
mod drawing;
#[cfg(test)]
mod events;
#[cfg(test)]
mod forms;
#[cfg(test)]
mod sessions;
