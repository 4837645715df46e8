//! The program, from words and bytes to bytes and a status.
#![tactic(auto)]

mod agent_words;
mod checks;
mod command;
mod described;
mod law;
mod offices;
mod questioned;
mod questions;
mod relayed;
mod rounded;
mod served;
mod status;
mod top;
mod words;

pub use command::{AgentWords, DeskCommand, RelayWords, ServeWords, SessionWords, finds_keeper};
pub use law::{
    a_relay_asks_for_what_it_lacks, commands_are_printed_as_answered, fronts_begin_the_play,
    one_play, one_said, played_offices_are_schedules, what_is_dropped_is_held,
};
pub use status::Status;
pub use top::desk;
