//! What a server keeps, in a database of SQL in a file, which an administrator can read too. The database itself is a trait, of which this
//! crate knows nothing more.
#![tactic(auto)]

mod columns;
mod counting;
mod database;
mod keeper;
mod listing;
mod open_keep;
mod opening;
mod reading;
mod row;
mod schema;
mod stop;
mod table_texts;
mod transaction;
mod writing;

pub use database::{Answer, Database, Value};
pub use keeper::SqlKeeper;
pub use opening::Opening;
pub use row::{Cell, Row};
pub use stop::Stop;
