//! A run of question lines: each is echoed and answered, all at once or page by page, and a paused question goes on later.
#![tactic(auto)]

mod answers;
mod asking;
mod errors;
mod halt;
mod laws;
mod line;
mod lines;
mod obeying;
mod opening;
mod paused;
mod reader;
mod session;
mod split;

pub use answers::{say_error, say_undefined};
pub use asking::Asking;
pub use halt::{Halt, put};
pub use laws::one_run;
pub use line::Line;
pub use lines::answer_lines;
pub use reader::{PlainReader, Reader};
