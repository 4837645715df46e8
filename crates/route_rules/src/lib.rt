//! The routes of the desk over HTTP: what a method and a path ask for, at a server and at a relay.
#![tactic(auto)]

mod endpoint;
mod law;
mod method;
mod path;
mod route;

pub use endpoint::Paths;
pub use law::one_route;
pub use method::Asking;
pub use route::{Route, Routes, find_route};
