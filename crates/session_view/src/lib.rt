//! Questions over what a server keeps: how a text is read as one, and the run of question lines over the tables of a keeper.
#![tactic(auto)]

mod prepare;
mod reader;
mod session;

pub use prepare::prepare_session;
pub use reader::SessionReader;
pub use session::answer_over_tables;
