//! Attempts of actions over a machine: what is relevant and due, and how an attempt goes on until it ends.
#![tactic(auto)]

mod asked_block;
mod attempt;
mod clause;
mod clauses;
mod component;
mod fixlet_texts;
mod found;
mod going;
mod read_block;
mod read_blocks;
mod read_fixlet;
mod read_site;
mod relevance;
mod time;
mod went;

pub use attempt::Attempt;
pub use found::Found;
pub use read_block::{ReadAction, ReadBaseline, ReadBlock};
pub use read_fixlet::ReadFixlet;
pub use read_site::{Content, ReadSite, SiteBaseline};
pub use relevance::{may_begin, relevant, wanted};
pub use time::Time;
pub use went::{Fail, Went, copy_fail};
