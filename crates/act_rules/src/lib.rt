//! When an action may run: its window, and the runs that it owes by its rows.
#![tactic(auto)]

mod law;
mod owing;
mod row;
mod rows;
mod rule;
mod tally;
mod times;

pub use law::{a_tally_counts_ended_rows, lawful_rows, lawful_rows_stay_lawful};
pub use owing::owed;
pub use row::{NO_NOTE, Note, Outcome, Row, Status};
pub use rows::{Rows, status};
pub use rule::{Hours, Reapply, Rules};
pub use tally::Tally;
pub use times::window;
