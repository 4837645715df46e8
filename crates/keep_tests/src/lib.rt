//! Tests of keepers, by public calls alone.
#![tactic(auto)]

#[cfg(test)]
mod next_rows;
#[cfg(test)]
mod rows;
#[cfg(test)]
mod talks;
