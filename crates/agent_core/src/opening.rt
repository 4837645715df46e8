// Opening an agent from its pocket.
ghost use Rattle.std.specs.Prelude.{◌≡◌, ◌≢◌, Some, IfOk, IsSome};
ghost use Rattle.line_forms.specs.Names.{IsName};
ghost use Rattle.agent_text.specs.Pockets.{Holds};
ghost use Rattle.agent_text.specs.SavedTexts.{IsSaved};
ghost use Rattle.agent_core.specs.Agents.{shown_state};
ghost use Rattle.agent_core.specs.Opens.{OpensAgent, OpensFrom, OpensLawful, new_state, opened_state};
ghost use Rattle.agent_core.specs.Stops.{AreLawfulIn, Table};

use crate::agent::Agent;
use crate::kept_state::KeptState;
use agent_state::{Outbox, SiteList, Tallies};
use agent_text::{Histories, Loaded, Pocket, Reports, Saved, SavedError, read_saved};
use desk_base::Bytes;
use rel_lexer::Text;
use std::alloc::{AllocError, Global};

/// What opening an agent comes to.
#[derive(Drop)]
pub enum Opened {
    Agent(Agent),
    /// The first line of the saved text that is bad, or names another computer.
    BadPocket(u32),
    /// The text couldn't be loaded.
    PocketFault,
    /// Want of memory.
    Memory,
}

impl Agent {
    /// The agent of the computer of this name, as it was saved: with its rows, reports, pending actions and next number, without sites
    /// and without an attempt. Where nothing is saved it has none of these, and its next number is 1.
    pub fn open<P: Pocket>(alloc: Global, name: &Text, pocket: &mut P) -> Opened
        requires { IsName name.now }
        ensures opens { OpensFrom name.now (P.told pocket.old) result (P.told pocket.new) }
        // Where the pocket tells its text, whose rows are lawful, the agent's are lawful too, and the saved ones stay so.
        ensures lawful { (table : Table) → IsSome (P.told pocket.old).saved → Holds (P.told pocket.old).saved (AreLawfulIn table)
            → OpensLawful table result (P.told pocket.new).saved }
    {
        Agent::load(alloc, name, pocket)
    }

    /// The agent of what the pocket loads.
    fn load<P: Pocket>(alloc: Global, name: &Text, pocket: &mut P) -> Opened
        requires { IsName name.now }
        ensures { OpensFrom name.now (P.told pocket.old) result (P.told pocket.new) }
    {
        match pocket.load() {
            Loaded::Nothing => match Agent::fresh(alloc, name) {
                Ok(agent) => Opened::Agent(agent),
                Err(_) => Opened::Memory,
            },
            Loaded::Saved(text) => Agent::read(alloc, name, &text),
            Loaded::Failed => Opened::PocketFault,
            Loaded::Memory => Opened::Memory,
        }
    }

    /// An agent that has done nothing yet. The error is want of memory.
    fn fresh(alloc: Global, name: &Text) -> Result<Agent, AllocError>
        requires { IsName name.now }
        ensures { IfOk result (λ agent. shown_state agent ≡ new_state name.now) }
    {
        Ok(Agent::of(
            alloc,
            Saved {
                computer: name.copy()?,
                next: 1,
                histories: Histories::new(alloc),
                reports: Reports::from_vec(Vec::new(alloc)),
            },
        ))
    }

    /// The agent of a saved text.
    fn read(alloc: Global, name: &Text, text: &Bytes) -> Opened
        requires { IsName name.now }
        ensures opens { OpensAgent name.now (Some (Some text.now)) result }
        ensures never { result ≢ Opened.PocketFault }
    {
        match read_saved(alloc, name, text.as_slice()) {
            Ok(saved) => Opened::Agent(Agent::of(alloc, saved)),
            Err(SavedError::BadLine(line)) => Opened::BadPocket(line),
            Err(SavedError::Memory) => Opened::Memory,
        }
    }

    /// The agent of what was saved. It takes no memory.
    fn of(alloc: Global, saved: Saved) -> Agent
        requires { IsSaved saved }
        ensures { shown_state result ≡ opened_state saved }
    {
        let Saved {
            computer,
            next,
            histories,
            reports,
        } = saved;
        let kept = KeptState {
            name: computer,
            sites: SiteList::new(alloc),
            tallies: Tallies::new(alloc),
            next,
            histories,
            outbox: Outbox::of(reports.into_vec()),
            held: None,
            unsaved: false,
        };
        Agent { kept }
    }
}
