//! Tests of the crates that read, check and print questions and reckon with values, by public calls alone.
#![tactic(auto)]

#[cfg(test)]
mod checking;
#[cfg(test)]
mod lexing;
#[cfg(test)]
mod parsing;
#[cfg(test)]
mod printing;
#[cfg(test)]
mod values;
