//! Analysts: each measures properties on one machine when they are due, and gives the rows as samples.
#![tactic(auto)]

mod analyst;
mod drawing;
mod law;
mod measuring;
mod moments;
mod sample;

pub use analyst::{Analyst, Taken};
pub use law::one_sample;
pub use sample::{Sample, Sampled, SampledRows, Values};
