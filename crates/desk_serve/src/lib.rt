//! A server that serves so many conversations over a door, one after another, and prints a line of each.
#![tactic(auto)]

mod law;
mod line;
mod run;
mod step;

pub use law::{
    faults_of_conversations_were_counted, one_serving, want_of_memory_is_told_last,
    what_ends_serving_was_counted,
};
pub use line::talk_line;
pub use run::serve;
pub use step::Stop;
