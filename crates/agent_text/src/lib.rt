//! What an agent keeps beyond a stop: the text that it saves, and the pockets that hold one.
#![tactic(auto)]

mod attempt_reader;
mod before;
mod error;
mod histories;
mod history;
mod history_reader;
mod kept_histories;
mod law;
mod list;
mod made;
mod made_reports;
mod memory_pocket;
mod pocket;
mod reader;
mod report_reader;
mod room_writer;
mod saved;
mod size;
mod sure_pocket;

pub use before::Before;
pub use error::SavedError;
pub use histories::Histories;
pub use history::History;
pub use law::{
    a_saved_text_is_read_again, changed_histories_can_be_saved, one_saved, saved_texts_are_short,
};
pub use made::Made;
pub use made_reports::MadeReports;
pub use memory_pocket::MemoryPocket;
pub use pocket::{Loaded, Pocket, SaveResult};
pub use reader::read_saved;
pub use report_reader::MOST_REPORTS;
pub use room_writer::fill_saved;
pub use saved::{Reports, Saved};
pub use size::saved_size;
pub use sure_pocket::SurePocket;
