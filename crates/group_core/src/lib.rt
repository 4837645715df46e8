//! Books: the newest row of each property of each computer, and the members of groups, kept step by step.
#![tactic(auto)]

mod adding;
mod book;
mod computer_name;
mod computers;
mod defining;
mod fitting;
mod kept_group;
mod kept_row;
mod law;
mod member_list;
mod putting;
mod row_list;

pub use book::{Added, Book, Defined, PutAnswer};
pub use group_sample::{Analyst, Sample, Sampled, SampledRows, Taken, Values, one_sample};
pub use group_text::{
    Analysis, Group, GroupError, Properties, Property, Test, Tests, a_group_ends_once,
    an_analysis_ends_once, one_analysis, one_group, read_analysis, read_group,
};
pub use law::one_list_of_members;
