ghost use Rattle.std.specs.Prelude.{◌≡◌, IfOk, None};
ghost use Rattle.line_forms.specs.Names.{IsName};
ghost use Rattle.bf_machine.specs.Sure.{untouched};
ghost use Rattle.agent_core.specs.Agents.{shown_state};
ghost use Rattle.agent_core.specs.Opens.{new_state};
ghost use Rattle.agent_state.specs.States.{IsSound};
ghost use Rattle.office_rules.specs.Offices.{new_computer};
ghost use Rattle.office_play.specs.States.{shown_computer};

use crate::restarting::opened;
use agent_core::Agent;
use agent_text::SurePocket;
use bf_machine::{SureMachine, World};
use group_core::Analyst;
use rel_lexer::Text;
use std::alloc::{AllocError, Global};
use std::marker::Model;

/// A computer of an office. Contracts see its name and the computer.
#[derive(Drop)]
pub(crate) struct PlayedComputer {
    pub(crate) name: Text,
    /// The name of its relay.
    pub(crate) relay: Text,
    pub(crate) agent: Agent,
    pub(crate) pocket: SurePocket,
    pub(crate) machine: SureMachine,
    /// The world in which its commands are done again for their lines.
    pub(crate) again: World,
    /// Who measures it.
    pub(crate) analyst: Analyst,
}

impl Model for PlayedComputer {
    ghost use Rattle.std.specs.Prelude.{List, ℕ};
    ghost use Rattle.std.specs.Coded.{codes};
    ghost use Rattle.agent_core.specs.contracts.agent.Agent as of_agent;
    ghost use Rattle.office_play.specs.States.{ComputerState};

    ghost Value = { List ℕ × ComputerState };

    ghost coded = { Prim.hlevel (codes, of_agent.the_row.coded) };

    ghost view = { λ c. (
      c.name,
      record {
        relay = c.relay;
        agent = c.agent;
        saved = c.pocket;
        world = c.machine.world;
        again = c.again;
        analyst = c.analyst;
      },
    ) };
}

/// An agent and its pocket.
#[derive(Drop)]
struct AgentWithPocket {
    agent: Agent,
    pocket: SurePocket,
}

/// A machine over a world, and the same world once more.
#[derive(Drop)]
pub(crate) struct TwoWorlds {
    pub(crate) machine: SureMachine,
    pub(crate) again: World,
}

/// The agent of this name, which has done nothing yet.
fn begun(alloc: Global, name: &Text) -> Result<AgentWithPocket, AllocError>
    requires { IsName name.now }
    ensures agent { IfOk result (λ begun. shown_state begun.agent ≡ new_state name.now) }
    ensures pocket { IfOk result (λ begun. begun.pocket ≡ None) }
    ensures sound { IfOk result (λ begun. IsSound (new_state name.now)) }
{
    let mut pocket = SurePocket::new(alloc);
    let agent = opened(alloc, name, &mut pocket)?;
    Ok(AgentWithPocket { agent, pocket })
}

/// The world of a computer, on which nothing was done yet, and the same once more.
pub(crate) fn two_worlds(alloc: Global, world: World) -> Result<TwoWorlds, AllocError>
    ensures machine { IfOk result (λ worlds. worlds.machine ≡ untouched world) }
    ensures again { IfOk result (λ worlds. worlds.again ≡ world) }
{
    let again = world.copy()?;
    Ok(TwoWorlds {
        machine: SureMachine::new(alloc, world),
        again,
    })
}

impl PlayedComputer {
    /// A computer of this name, at a relay. Its agent has done nothing yet.
    pub(crate) fn new(
        alloc: Global,
        name: Text,
        relay: Text,
        worlds: TwoWorlds,
    ) -> Result<PlayedComputer, AllocError>
        requires { IsName name }
        ensures name { IfOk result (λ computer. computer.0 ≡ name) }
        ensures computer { IfOk result (λ computer. shown_computer computer.1 ≡ record (new_computer name relay worlds.machine.world) {
          again = worlds.again;
        }) }
        ensures sound { IfOk result (λ computer. IsSound (new_state name)) }
    {
        let begun = begun(alloc, &name)?;
        let analyst = Analyst::new(alloc, &name)?;
        Ok(PlayedComputer {
            name,
            relay,
            agent: begun.agent,
            pocket: begun.pocket,
            machine: worlds.machine,
            again: worlds.again,
            analyst,
        })
    }
}
