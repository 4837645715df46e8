//! Tests of the top call, and of the bytes and devices that it is handed, by public calls alone.
#![tactic(auto)]

#[cfg(test)]
mod devices;
#[cfg(test)]
mod kept;
#[cfg(test)]
mod round_rows;
#[cfg(test)]
mod rounds;
#[cfg(test)]
mod runs;
#[cfg(test)]
mod serving;
#[cfg(test)]
mod top;
