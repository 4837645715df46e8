//! Tests of agents, by public calls alone.
#![tactic(auto)]

#[cfg(test)]
mod attempts;
#[cfg(test)]
mod baselines;
#[cfg(test)]
mod book;
#[cfg(test)]
mod files;
#[cfg(test)]
mod histories;
#[cfg(test)]
mod holds;
#[cfg(test)]
mod marks;
#[cfg(test)]
mod notes;
#[cfg(test)]
mod played;
#[cfg(test)]
mod pockets;
#[cfg(test)]
mod reports;
#[cfg(test)]
mod said;
#[cfg(test)]
mod saved_texts;
#[cfg(test)]
mod saving;
#[cfg(test)]
mod series;
#[cfg(test)]
mod shown;
#[cfg(test)]
mod sites;
#[cfg(test)]
mod starts;
#[cfg(test)]
mod stops;
#[cfg(test)]
mod stories;
#[cfg(test)]
mod turns;
