//! Plays offices: a server, relays, computers and messages in memory, word by word, in the order of the words.
#![tactic(auto)]

mod aiming;
mod asking;
mod computer;
mod delivering;
mod ending;
mod forgetting;
mod forwarding;
mod gathering;
mod keeping;
mod line;
mod listing;
mod measuring;
mod message;
mod naming;
mod obeying;
mod office;
mod play;
mod pushing;
mod relay;
mod reporting;
mod restarting;
mod sending;
mod served;
mod targeting;
mod turning;

pub use play::{PlayEnd, play_office};
