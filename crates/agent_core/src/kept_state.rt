ghost use Rattle.agent_state.specs.Changes.{DropsState};
ghost use Rattle.agent_core.specs.Inside.{IsSoundKept, state_of};

use agent_attempt::Attempt;
use agent_state::{Outbox, SiteList, Tallies};
use agent_text::Histories;
use rel_lexer::Text;

/// The state of an agent, as the agent keeps it.
#[derive(Drop)]
pub struct KeptState {
    /// The name of its computer.
    pub(crate) name: Text,
    pub(crate) sites: SiteList,
    /// Those of the actions of the gathered `actionsite`.
    pub(crate) tallies: Tallies,
    /// The number of the next report.
    pub(crate) next: u64,
    pub(crate) histories: Histories,
    pub(crate) outbox: Outbox,
    pub(crate) held: Option<Attempt>,
    /// Whether something is unsaved.
    pub(crate) unsaved: bool,
}

impl KeptState {
    /// Drops the report with this number, and answers whether it was there. It takes no memory.
    pub(crate) fn drop_report(&mut self, seq: u64) -> bool
        requires { IsSoundKept self.old }
        ensures state { DropsState seq (state_of self.old) result (state_of self.new) }
        ensures sound { IsSoundKept self.new }
    {
        if !self.outbox.drop_report(seq) {
            return false;
        }
        self.unsaved = true;
        true
    }
}
