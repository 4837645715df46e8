//! Tests of what is answered over HTTP, by public calls alone.
#![tactic(auto)]

#[cfg(test)]
mod replies;
