//! Questions: prepared from a text, and their values drawn one at a time from a machine in a scene.
#![tactic(auto)]

mod answers;
mod cursor;
mod laws;
mod one_texts;
mod one_value;
mod place_text;
mod question;
mod refusal;
mod taker;
mod told;
mod truths;

pub use cursor::{Cursor, Pulled};
pub use laws::one_plan;
pub use one_texts::one_text;
pub use place_text::write_place;
pub use question::{Question, prepare, prepare_tree};
pub use refusal::{Located, Refusal};
pub use rel_trace::RelKind;
pub use taker::{Ended, Take, Taker};
pub use told::{OneText, Truth};
pub use truths::truth;
