//! The grammar of questions: from tokens to the tree of their one reading, or to the first token that is wrong.
#![tactic(auto)]

mod casts;
mod constant;
mod copy;
mod error;
mod heads;
mod laws;
mod level;
mod make;
mod parser;
mod peek;
mod question;
mod relation_sign;
mod spans;
mod tree;
mod vocabulary;
mod words;

pub use casts::{CastList, CastTo};
pub use error::ParseError;
pub use laws::{one_depth, one_reading, one_tree, parsed_in_one_way, what_trees_show};
pub use question::parse;
pub use rel_lexer::{BinarySign, UnarySign};
pub use spans::{span, span_of_part, span_of_question};
pub use tree::{Link2, LinkList, Tree, TreeList};
pub use vocabulary::{Helper, Reserved};
