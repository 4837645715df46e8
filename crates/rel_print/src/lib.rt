//! Trees of questions as texts.
#![tactic(auto)]

mod escape;
mod pen;
mod printing;

pub use printing::print;
