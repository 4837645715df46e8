//! The database of a keeper, in a file of SQLite. No other crate meets `sqlite`.
#![tactic(auto)]

mod calls;
mod place;
mod rows;
mod sqlite_file;
mod stop;

pub use sqlite_file::SqliteFile;
