use std::io::Eprint;
use std::net::Net;
use std::time::Clock;

/// What a door and a link ask of the runtime: sockets, the time, and a line for each fault.
pub trait Network: Net + Clock + Eprint + Clone + Drop {}

impl<N: Net + Clock + Eprint + Clone + Drop> Network for N {}
