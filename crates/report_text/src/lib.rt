//! What is reported of attempts: reports, their texts, and what becomes of them.
#![tactic(auto)]

mod answer;
mod bytes_writer;
mod error;
mod field;
mod field_writer;
mod form;
mod head;
mod law;
mod reader;
mod report;
mod report_row;
mod room_writer;
mod row_reader;
mod writer;

pub use answer::{Gathered, Verdict};
pub use bytes_writer::write_row_fields;
pub use error::ReportError;
pub use field::{read_attempt, read_end, read_outcome};
pub use field_writer::fill_end;
pub use form::Form;
pub use head::{read_form, read_seq};
pub use law::{a_report_is_read_again, one_report, reports_are_short};
pub use reader::{MOST_ROWS, read_report, take_report, take_rows};
pub use report::{Report, ReportRows};
pub use report_row::ReportRow;
pub use room_writer::{fill_note, fill_report, fill_row_fields, outcome_field};
pub use row_reader::{is_note_at, read_row, read_row_fields, take_note, take_row};
pub use writer::{digest, report_size, write_report};
