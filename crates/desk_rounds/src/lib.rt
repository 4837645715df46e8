//! Rounds over a link to an upstream: a relay's, which gathers newer sites and posts what is queued, and an agent's, which makes its turn
//! between the two.
#![tactic(auto)]

mod agent_rounds;
mod agent_turns;
mod asking;
mod client;
mod files;
mod gathering;
mod judged;
mod line;
mod listed;
mod part;
mod posting;
mod relay_rounds;
mod replies;
mod requests;
mod way;

pub use agent_rounds::{RoundEnd, Rounder, agent_round};
pub use relay_rounds::relay_round;
pub use way::Upstreams;
