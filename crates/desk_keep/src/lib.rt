//! What a server keeps: rows of tables, and the trait by which they are kept, with keepers in memory.
#![tactic(auto)]

mod answer;
mod batch;
mod change;
mod changes;
mod find;
mod forms;
mod keeper;
mod key;
mod law;
mod listing;
mod memory;
mod ordered_rows;
mod result_row;
mod sure;
mod table;

pub use answer::{Applied, Counted, Found, Listed};
pub use change::Change;
pub use changes::Changes;
pub use find::Find;
pub use keeper::Keeper;
pub use law::{a_new_row_is_counted, a_row_is_found_where_it_was_put, one_key, rows_stay_rows};
pub use memory::MemoryKeeper;
pub use report_text::ReportRow;
pub use result_row::ResultRow;
pub use sure::SureKeeper;
pub use table::Table;
