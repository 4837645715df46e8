//! Tests of scripts that run, by public calls alone.
#![tactic(auto)]

#[cfg(test)]
mod played;
#[cfg(test)]
mod said;
#[cfg(test)]
mod scripts;
