//! Walks: what a property gives over one object, one event at a time, and the looks at the machine that it makes.
#![tactic(auto)]

mod begin;
mod descent;
mod facet;
mod listing;
mod look_rows;
mod offered;
mod once;
mod rows;
mod turns;
mod walk;

pub use begin::inspect;
pub use rel_sources::{Pair, Pairs, Scene, WalkEvent, WalkStep};
pub use walk::Walk;
