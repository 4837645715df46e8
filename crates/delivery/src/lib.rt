//! The delivery of reports: messages, what one does where it arrives, and schedules of what happens to them in any order.
#![tactic(auto)]

mod law;

pub use law::{a_relay_delivers_as_its_carrier, what_is_dropped_is_held};
