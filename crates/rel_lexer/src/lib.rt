//! What a question is written in: texts, the places of their bytes, and tokens.
#![tactic(auto)]

mod bytes;
mod comment;
mod error;
mod law;
mod lexer;
mod number;
mod operator;
mod piece;
mod place;
mod sign;
mod string;
mod text;
mod token;
mod token_list;
mod word;

pub use bytes::is_blank;
pub use error::LexError;
pub use law::lexed_in_one_way;
pub use lexer::tokens;
pub use operator::{BinarySign, UnarySign};
pub use place::Place;
pub use sign::Sign;
pub use text::Text;
pub use token::{Token, TokenKind};
pub use token_list::{TokenList, Tokens};
