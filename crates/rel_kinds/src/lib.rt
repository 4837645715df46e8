//! What the kind of a plan promises: each value that its evaluation gives has that kind, and a plan that is not plural gives one
//! value or an error. So no definition of the meaning comes to what it says of a value of another kind.
#![tactic(auto)]

mod evaluating;
mod tables;

pub use evaluating::{evaluations_keep_kinds, singular_plans_give_one};
pub use tables::{aggregates_have_outcomes, properties_take_what_they_ask_for, tables_keep_kinds};
