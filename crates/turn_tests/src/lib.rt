//! Tests of the lines of turns and commands, of words for verdicts, and of turns with files between them.
#![tactic(auto)]

#[cfg(test)]
mod commands;
#[cfg(test)]
mod served;
#[cfg(test)]
mod turns;
#[cfg(test)]
mod words;
