//! What a question means, and its evaluation value by value, by a tree of nodes that know how far they have come.
#![tactic(auto)]

mod arrows;
mod beginning;
mod counting;
mod held_parts;
mod laws;
mod make;
mod node;
mod property;
mod pure;
mod runs;
mod spans;
mod tuples;
mod walking;

pub use beginning::begin;
pub use laws::{few_forms_mean_the_same, plans_keep_spans};
pub use node::Node;
pub use property::Property;
pub use pure::Pure;
pub use spans::span;
pub use walking::Walking;
