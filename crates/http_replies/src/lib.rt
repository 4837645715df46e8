//! What is answered over HTTP: the status and the body of each reply of a server, and of what a relay says beside them.
#![tactic(auto)]

mod answer;
mod law;

pub use answer::Answer;
pub use law::refusals_are_replies;
pub use server_text::Reply;
