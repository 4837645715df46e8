//! The real pocket: a text in a file. It counts its faults and tells no text.
#![tactic(auto)]

mod hold;
mod pocket;
mod reading;
mod replace;

pub use hold::PocketHost;
pub use pocket::FilePocket;
