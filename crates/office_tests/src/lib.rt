//! Tests of the crate that reads and makes the texts of offices, by public calls alone.
#![tactic(auto)]

#[cfg(test)]
mod bad_lines;
#[cfg(test)]
mod made_texts;
#[cfg(test)]
mod words;
