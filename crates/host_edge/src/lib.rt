//! The real objects: standard input and output, the system's clock, and the machine that the program runs on. They are a few lines
//! each over std, count their faults, and tell no content.
#![tactic(auto)]

mod change;
mod clock;
mod host;
mod kind;
mod list;
mod machine;
mod missing;
mod ordered;
mod place;
mod processes;
mod programs;
mod read;
mod replace;
mod rights;
mod rows;
mod settings;
mod sink;
mod source;
mod stat;
mod undone;

pub use clock::SystemClock;
pub use host::Host;
pub use machine::HostMachine;
pub use sink::FileSink;
pub use source::FileSource;
