//! A relay: it queues the reports of computers for the server, knows which of them the server holds, and keeps sites.
#![tactic(auto)]

mod key;
mod law;
mod relay;
mod report_queue;
mod site_list;

pub use law::one_keeping;
pub use relay::{Asked, Relay, RelayAnswer};
pub use report_text::{Gathered, Verdict};
