//! Scripts that run: their lines are done one after another, and a run goes on where it was held.
#![tactic(auto)]

mod advance;
mod arms;
mod asking;
mod broken;
mod cause;
mod compare;
mod deeds;
mod fetches;
mod files;
mod filling;
mod kept;
mod laws;
mod lines;
mod place;
mod ran;
mod run;
mod steps;
mod times;
mod todo;

pub use cause::Cause;
pub use laws::{
    a_machine_fault_is_counted, a_supply_follows_the_course, an_advance_follows_the_course,
    commands_add_up, one_course,
};
pub use ran::Ran;
pub use run::Run;
