//! What is wrong first with a site of content: a line, an id, the digest, a question or a script.
#![tactic(auto)]

mod check;
mod finding;
mod law;
mod piece_check;
mod refusal;
mod say;

pub use check::{check_site, refusal_of_site};
pub use finding::Finding;
pub use law::one_finding;
pub use piece_check::question_fault;
pub use refusal::{PieceRefusal, QuestionFault, ScriptFault};
pub use say::say_finding;
