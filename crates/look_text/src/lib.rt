//! What a look shows, as text: for the shell over the machine at hand, and for tests.
#![tactic(auto)]

mod shown;

pub use shown::write_looked;
