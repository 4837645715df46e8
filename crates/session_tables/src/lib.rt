//! The tables of a keeper as the world of a machine.
#![tactic(auto)]

mod entries;
mod laws;
mod look;
mod looking;
mod machine;
mod result_text;
mod shown;
mod spot;
mod stop;

pub use laws::rows_with_paths_are_shown;
pub use machine::SessionMachine;
