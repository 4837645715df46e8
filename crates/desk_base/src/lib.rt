//! Bytes, and the traits by which the desk meets the outside: sources, sinks and clocks.
#![tactic(auto)]

mod bytes;
mod calls;
mod clock;
mod memory_clock;
mod memory_sink;
mod memory_source;
mod room;
mod sink;
mod source;
mod whole;

pub use bytes::{Bytes, decimal};
pub use calls::Calls;
pub use clock::{Clock, LAST_MOMENT, Told};
pub use memory_clock::StepClock;
pub use memory_sink::MemorySink;
pub use memory_source::MemorySource;
pub use room::{Room, numbers_are_short};
pub use sink::{Put, Sink};
pub use source::{Got, Source};
pub use whole::{Whole, read_all};
