//! A relay and an agent at work: upstream rounds and conversations, or rounds alone, one after another, and the lines of each.
#![tactic(auto)]

mod law;
mod relaying;
mod rounding;

pub use law::{
    a_link_fault_was_counted, a_relay_keeps_what_was_asked_for, a_round_turns_once,
    answers_are_those_without_a_cache, faults_of_steps_were_counted, one_relaying, one_rounding,
    what_ends_a_relay_was_counted, what_ends_rounds_was_counted,
};
pub use relaying::relay_all;
pub use rounding::{AgentStop, make_rounds};
