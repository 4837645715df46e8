//! Tests of conversations that are served one after another, by public calls alone.
#![tactic(auto)]

#[cfg(test)]
mod serving;
