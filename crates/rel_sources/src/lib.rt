//! What walks are made of: their events and what they know beside the machine, and the sources that values are drawn from, one at a
//! time.
#![tactic(auto)]

mod content;
mod entries;
mod event;
mod held;
mod integers;
mod lines;
mod members;
mod pair;
mod pieces;
mod places;
mod scene;
mod source;

pub use content::{numbered_line, readable};
pub use entries::Entries;
pub use event::{WalkEvent, WalkStep};
pub use held::{Drawn, HeldItem};
pub use integers::Integers;
pub use lines::Lines;
pub use members::{Members, Rows};
pub use pair::{Pair, Pairs};
pub use pieces::Pieces;
pub use places::{first_part, last_part};
pub use scene::Scene;
pub use source::ItemSource;
