//! The texts of a server: what it is asked, as types and as it is read, and what it answers, as types and as it is written.
#![tactic(auto)]

mod action_state;
mod actionsite;
mod body;
mod body_rows;
mod law;
mod reading;
mod reply;
mod request;
mod result_rows;
mod site_versions;
mod text_error;

pub use action_state::{before_state, is_stopped, stopped_text};
pub use actionsite::{actionsite_text, longest_actionsite};
pub use body::say_reply;
pub use law::{
    a_written_report_is_read, actionsite_is_a_site, one_meaning, the_state_ends_an_action,
};
pub use reading::{read_issued, read_published, read_reported};
pub use reply::Reply;
pub use request::Request;
pub use result_rows::{ResultRows, results_in};
pub use site_versions::{SiteVersion, SiteVersions, sites_in};
pub use text_error::TextError;
