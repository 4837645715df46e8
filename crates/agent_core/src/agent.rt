ghost use Rattle.std.specs.Prelude.{◌≡◌, ℕ, MatchOption, take, option_copied, [], length, ◌<◌};
ghost use Rattle.agent_attempt.specs.ActionContents.{site_at};
ghost use Rattle.agent_text.specs.Histories.{rows_at};
ghost use Rattle.agent_core.specs.Agents.{shown_state};
ghost use Rattle.agent_core.specs.Stops.{HeldWaitsBelow};
ghost use Rattle.agent_state.specs.Changes.{AnswersTally, SettlesState, SuppliesState, kept_version};

use crate::kept_state::KeptState;
use act_rules::{Rows, Tally};
use desk_base::Bytes;
use rel_lexer::Text;
use report_text::{Report, Verdict};
use std::marker::Model;

/// An agent. Contracts see its state.
#[derive(Drop)]
pub struct Agent {
    pub(crate) kept: KeptState,
}

impl Model for Agent {
    ghost use Rattle.agent_core.specs.Agents.{AgentState};
    ghost use Rattle.agent_core.specs.Inside.{IsSoundKept, agent_of};
    ghost use Rattle.std.specs.Coded.{codes};
    ghost use Rattle.agent_attempt.specs.contracts.attempt.Attempt as attempt;

    ghost Value = { AgentState };

    ghost coded = { Prim.hlevel (codes, attempt.the_row.coded) };

    ghost view = { λ a. agent_of a.kept };

    ghost invariant = { λ a. IsSoundKept a.kept };
}

impl Agent {
    /// The saved reports that aren't known to have arrived, the oldest first. It takes no memory, nor do the
    /// calls below.
    pub fn outbox(&self) -> &[Report]
        ensures { result.now ≡ take self.now.shown self.now.reports }
    {
        self.kept.outbox.shown()
    }

    /// Tells what became of the report with this number. One that is stored is dropped; the answer is whether one was.
    pub fn settle(&mut self, seq: u64, verdict: &Verdict) -> bool
        ensures { SettlesState seq verdict.now (shown_state self.old) result (shown_state self.new) }
    {
        match verdict {
            Verdict::Stored => self.kept.drop_report(seq),
            Verdict::Carried | Verdict::Conflict(_) | Verdict::Full(_) => false,
        }
    }

    /// Takes what came for the file of a digest, its SHA-256: its bytes, or None where it isn't served. It is false where the held
    /// attempt didn't want that file with its last answer, or it came already.
    pub fn supply(&mut self, digest: &[u8; 32], bytes: Option<Bytes>) -> bool
        ensures supplies { SuppliesState (shown_state self.old) digest.now bytes result (shown_state self.new) }
        // The program that the held attempt waits for is the same one.
        ensures waits { (started : ℕ) → HeldWaitsBelow started (shown_state self.old).held
            → HeldWaitsBelow started (shown_state self.new).held }
    {
        match &mut self.kept.held {
            Some(attempt) => attempt.supply(digest, bytes),
            None => false,
        }
    }

    /// The rows of an action, None where it has none.
    pub fn rows(&self, action: u64) -> Option<&Rows>
        ensures { MatchOption result (rows_at action self.now.histories ≡ [])
            (λ rows. (rows.now.rows ≡ rows_at action self.now.histories) × (0 < length rows.now.rows)) }
    {
        self.kept.histories.rows(action)
    }

    /// The version of the gathered site of this name, 0 where none is.
    pub fn version(&self, site: &Text) -> u64
        ensures { result ≡ kept_version (site_at site.now self.now.sites) }
    {
        self.kept.sites.version(site.as_str())
    }

    /// The tally that stands for the rows of an action under its retries, None where no gathered `actionsite` has the action.
    pub fn tally(&self, action: u64) -> Option<&Tally>
        ensures { AnswersTally (shown_state self.now) action (option_copied result) }
    {
        Some(&self.kept.tallies.get(action)?.tally)
    }
}
