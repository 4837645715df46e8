//! The files that a relay keeps: so many as it has room for, those that were asked for last.
#![tactic(auto)]

mod file_cache;
mod kept;
mod law;

pub use file_cache::FileCache;
pub use kept::Kept;
pub use law::{
    a_kept_file_has_its_digest, a_kept_file_was_given, a_steady_upstream_gives_it_again,
};
