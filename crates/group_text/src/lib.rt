//! What is measured on machines, and which of them make a group: analyses and groups, and the texts that spell them.
#![tactic(auto)]

mod analysis;
mod analysis_reader;
mod error;
mod group;
mod group_reader;
mod law;
mod list;
mod property;
mod test;

pub use analysis::{Analysis, Properties};
pub use analysis_reader::read_analysis;
pub use error::GroupError;
pub use group::{Group, Tests};
pub use group_reader::read_group;
pub use law::{a_group_ends_once, an_analysis_ends_once, one_analysis, one_group};
pub use property::Property;
pub use test::Test;
