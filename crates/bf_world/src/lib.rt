//! Described machines: their worlds, what a look shows, what a command does, and what a poll answers.
#![tactic(auto)]

mod act;
mod answer;
mod change;
mod command;
mod copied;
mod key;
mod lists;
mod look;
mod parts;
mod path;
mod poll;
mod refuse;
mod text_map;
mod world;

use act::DOWNLOAD;
pub use answer::{Answer, Entry, PackageRow, SettingRow};
pub use command::{Acted, Command, Polled, ProcessNo, Reason};
pub use key::Key;
pub use lists::{EntryList, NameList, PackageList, SettingList};
pub use parts::{Node, Program, Run, SettingValue};
pub use path::{is_part, is_path, joined, last_name};
pub use text_map::TextMap;
pub use world::World;
