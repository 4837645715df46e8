//! An agent: it gathers sites, makes turns, and reports what it did.
#![tactic(auto)]

mod agent;
mod beginning;
mod clearing;
mod finishing;
mod gathering;
mod kept_state;
mod law;
mod opening;
mod resuming;
mod saving;
mod trying;
mod turned;
mod turning;

pub use agent::Agent;
pub use agent_attempt::Fail;
pub use agent_text::{Loaded, MemoryPocket, Pocket, SaveResult};
pub use law::{
    a_saved_state_is_read_again, a_turn_acts_step_by_step, a_turn_adds_one_report,
    agents_are_sound, attempts_are_bounded, devices_go_on_telling, one_change, one_turn,
    pockets_keep_own_texts, shown_reports_are_saved, stops_leave_rows_lawful,
    told_faults_are_counted, turns_are_steps, wants_come_to_an_end,
};
pub use opening::Opened;
pub use report_text::{Gathered, Verdict};
pub use turned::Turned;
