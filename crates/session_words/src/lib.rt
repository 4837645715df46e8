//! The words that ask for the rows of the tables of a server: what they become in the tree of a question, and how deep they may stand.
#![tactic(auto)]

mod depth;
mod laws;
mod replace;
mod rewriting;

pub use depth::too_deep;
pub use laws::phrases_stand_as_deep_as_their_words;
pub use replace::replaced;
