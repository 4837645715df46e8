//! How an evaluation goes on: the states of a question's forms, each of which makes a step of its parts into a step of its own, and
//! the traces that these steps stand for.
#![tactic(auto)]

mod apply;
mod choice;
mod concatenation;
mod draw;
mod filter;
mod fold;
mod folding;
mod handing;
mod held;
mod joining;
mod kind;
mod logic;
mod one;
mod operation;
mod scalar;
mod scope;
mod sequence;
mod step;
mod two;
mod worked;

pub use apply::Apply;
pub use choice::Choice;
pub use draw::Draw;
pub use filter::Filter;
pub use fold::Fold;
pub use folding::Folding;
pub use handing::{Hand, Handing};
pub use held::Held;
pub use joining::Joining;
pub use kind::RelKind;
pub use logic::Logic;
pub use one::One;
pub use scalar::Scalar;
pub use scope::Scope;
pub use sequence::{Order, Sequence};
pub use step::{Next, Step};
pub use two::Two;
