//! Laws: the action that begins in a turn of an agent is the least that is due.
#![tactic(auto)]

mod law;

pub use law::{
    a_free_agent_begins_what_is_due, a_turn_begins_one_at_most, an_idle_turn_found_none_due,
    the_least_due_action_begins,
};
