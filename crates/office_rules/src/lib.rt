//! What an office means: what each order does and prints, and what is printed at the end.
#![tactic(auto)]

mod law;

pub use law::{
    commands_are_printed_as_answered, fronts_begin_the_play, one_play, played_offices_are_schedules,
};
