//! What the real devices share: how they count their faults and tell them, and why a call of one gives up.
#![tactic(auto)]

mod faults;
mod trouble;

pub use faults::{Faults, tell};
pub use trouble::Trouble;
