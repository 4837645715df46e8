//! The server: what it answers to each request, and what it keeps of those that it accepts.
#![tactic(auto)]

mod asking;
mod filing;
mod issuing;
mod keeping;
mod law;
mod limits;
mod looking;
mod publishing;
mod reporting;
mod run;
mod server;
mod stop;

pub use desk_keep::ResultRow;
pub use law::{
    a_computer_is_kept_that_reported, a_file_is_kept_by_its_digest, a_reply_says_what_is_held,
    a_report_is_kept_by_its_number, actionsite_counts_actions_and_stops,
    an_action_is_kept_as_it_came, an_answered_site_is_read, answers_leave_what_is_accepted,
    the_greatest_number_is_kept, the_last_site_is_kept, the_tables_are_rows,
    what_is_accepted_stays,
};
pub use limits::Limits;
pub use run::{Replies, answer_all};
pub use server::Server;
pub use server_text::{
    Reply, Request, ResultRows, SiteVersion, SiteVersions, a_written_report_is_read, one_meaning,
    say_reply, the_state_ends_an_action,
};
