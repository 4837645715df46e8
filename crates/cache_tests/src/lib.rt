//! Tests of file caches, by public calls alone.
#![tactic(auto)]

#[cfg(test)]
mod files;
