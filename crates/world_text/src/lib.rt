//! Texts that describe machines.
#![tactic(auto)]

mod draft;
mod error;
mod fault;
mod fields;
mod front;
mod head;
mod kind;
mod law;
mod named;
mod read;
mod row;
mod thing;

pub use error::WorldError;
pub use front::{WorldFront, world_front};
pub use law::{a_world_is_read, one_addition, one_front, one_head_text, one_world};
pub use named::read_named_world;
pub use read::read_world;
