//! HTTP at both ends: one conversation over a door, whose request a host answers, and the bytes of a request and of its reply.
#![tactic(auto)]

mod client;
mod fields;
mod host;
mod law;
mod reading;
mod reply;
mod request;
mod response;
mod talk;

pub use client::ask_bytes;
pub use desk_door::{Door, DoorGot, Exchanged, Link, MemoryDoor, MemoryLink};
pub use host::{Called, Site2};
pub use law::{
    a_byte_behind_a_reply_is_bad, a_reply_is_one_thing, what_is_asked_is_heard,
    what_is_heard_is_one_thing, what_is_spoken_is_read,
};
pub use reply::{ReadReply, read_reply};
pub use request::Refusal;
pub use route_rules::{Asking, Paths, Route, Routes, find_route};
pub use talk::{Met, converse};
