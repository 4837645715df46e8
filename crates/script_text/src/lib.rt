//! The texts of actions: from lines to the tree of statements that they spell, or to the first line that is refused.
#![tactic(auto)]

mod command;
mod error;
mod expression;
mod fields;
mod forms;
mod kind;
mod law;
mod line;
mod piece;
mod prefetch;
mod read;
mod reader;
mod run;
mod script;
mod template;
mod tree;

pub use error::ScriptError;
pub use law::{
    a_statement_shows_its_parts, an_error_tells_one_of_the_lines, arms_show_each, one_verdict,
    statements_show_each,
};
pub use line::Line;
pub use prefetch::{Prefetch, PrefetchList};
pub use read::read_script;
pub use script::Script;
pub use template::{Part2, PartList, Template, TemplateList};
pub use tree::{Arm, ArmList, Statement, StatementList};
