//! Tests of rounds, by public calls alone: relays and agents over links, pockets and worlds in memory.
#![tactic(auto)]

#[cfg(test)]
mod agent_rows;
#[cfg(test)]
mod agents;
#[cfg(test)]
mod relay_rows;
#[cfg(test)]
mod relays;
#[cfg(test)]
mod second_rows;
#[cfg(test)]
mod site_texts;
#[cfg(test)]
mod upstream;
