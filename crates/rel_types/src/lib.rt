//! Which questions are well typed: the plan of a question, or the first fault in the order of checking.
#![tactic(auto)]

mod aggregates;
mod alike;
mod ask;
mod cast_steps;
mod cast_words;
mod casts;
mod checking;
mod copy;
mod error;
mod given;
mod head;
mod kinds;
mod laws;
mod links;
mod make;
mod naming;
mod node;
mod nodes;
mod plan;
mod properties;
mod row;
mod scalar;
mod typing;

pub use cast_steps::{CastStep, CastSteps};
pub use checking::check;
pub use error::TypeError;
pub use head::{Aggregate, Head};
pub use laws::plans_agree;
pub use node::{Form, Link, Links, Node, NodeList};
pub use plan::{Kind2, Plan};
