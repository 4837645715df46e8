//! What the state of an agent is made of: its sites, the tallies of their actions, its outbox, and the room that a turn takes first.
#![tactic(auto)]

mod outbox;
mod rows;
mod site_list;
mod spare;
mod tallies;

pub use outbox::Outbox;
pub use rows::{add_row, is_of_another, is_running, rows_of};
pub use site_list::{ACTION_SITE, SiteList};
pub use spare::Spare;
pub use tallies::{ActionTally, Tallies};
