//! The hosts that answer conversations: a server over its keeper, and a relay with a link to its upstream.
#![tactic(auto)]

mod file;
mod law;
mod relay_host;
mod server_host;
mod site_list;

pub use desk_http::{Asking, Called, Paths, Site2};
pub use law::{a_file_has_its_digest, a_keeper_fault_was_counted, what_has_no_route_is_no_such};
pub use relay_host::RelayHost;
pub use server_host::ServerHost;
