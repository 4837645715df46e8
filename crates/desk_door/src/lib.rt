//! The traits by which the desk meets a network: doors, at which peers begin conversations, and links, which ask an upstream; and both in
//! memory.
#![tactic(auto)]

mod asked;
mod door;
mod link;
mod memory_door;
mod memory_link;

pub use asked::Asked;
pub use desk_base::Got as DoorGot;
pub use door::Door;
pub use link::{Exchanged, Link};
pub use memory_door::MemoryDoor;
pub use memory_link::MemoryLink;
