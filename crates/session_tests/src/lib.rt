//! Tests of questions over the tables of a server, by public calls alone.
#![tactic(auto)]

#[cfg(test)]
mod depths;
#[cfg(test)]
mod questions;
#[cfg(test)]
mod tables;
#[cfg(test)]
mod words;
