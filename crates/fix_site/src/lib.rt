//! Sites, their blocks and actions, as texts and read from texts.
#![tactic(auto)]

mod action;
mod action_reader;
mod action_writer;
mod baseline;
mod block;
mod block_reader;
mod blocks_so_far;
mod content_reader;
mod content_writer;
mod error;
mod field;
mod fixlet;
mod ids;
mod law;
mod piece;
mod piece_list;
mod rule_reader;
mod rule_writer;
mod site;
mod site_reader;
mod site_writer;
mod texts;

pub use action::{Action, Target};
pub use action_reader::read_action;
pub use action_writer::write_action;
pub use baseline::Baseline;
pub use block::{Block, Blocks};
pub use error::SiteError;
pub use fixlet::{Fixlet, Success};
pub use ids::Ids;
pub use law::{
    a_piece_stands_at_its_line, a_site_has_few_lines, a_site_is_read_again,
    an_action_is_read_again, one_action, one_reading, one_site,
};
pub use piece::{Piece, Pieces};
pub use piece_list::pieces;
pub use site::Site;
pub use site_reader::read_site;
pub use site_writer::write_site;
pub use texts::Texts;
