//! The real door and the real link, over TCP. They count their faults and tell no content.
#![tactic(auto)]

mod door;
mod limits;
mod link;
mod network;
mod reading;
mod reply;
mod settings;
mod silent;
mod upstream;
mod writing;

pub use door::TcpDoor;
pub use link::TcpLink;
pub use network::Network;
pub use settings::{listen_address, seconds_between};
