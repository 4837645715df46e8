//! What is written of an agent's turns and of the commands that were done, and turns with files between them.
#![tactic(auto)]

mod command_line;
mod giver;
mod turn_line;
mod with_files;
mod words;

pub use command_line::{say_again, say_command};
pub use giver::{FileAsked, Given, Giver};
pub use turn_line::say_turn;
pub use with_files::{TurnTime, turn_with_files};
pub use words::{reply_word, verdict_word};
