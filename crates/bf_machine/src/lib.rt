//! Machines, which show what is on them and do commands, and the machines over a described world, which is read from
//! a text.
#![tactic(auto)]

mod chain;
mod laws;
mod machine;
mod plain;
mod sure;
mod unseen;

pub use bf_world::{
    Acted, Answer, Command, Entry, EntryList, Key, NameList, PackageList, PackageRow, Polled,
    ProcessNo, Reason, SettingList, SettingRow, World,
};
pub use laws::commands_are_answered_alike;
pub use machine::{Looked, Machine};
pub use plain::PlainMachine;
pub use sure::SureMachine;
pub use unseen::Unseen;
pub use world_text::{WorldError, read_world};
