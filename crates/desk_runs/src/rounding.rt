// An agent at work.
ghost use Rattle.std.specs.Prelude.{◌≡◌, MatchResult};
ghost use Rattle.desk_base.specs.Flow.{Writes};
ghost use Rattle.line_forms.specs.Numbers.{IsOffset};
ghost use Rattle.agent_core.specs.Agents.{shown_state};
ghost use Rattle.agent_core.specs.Devices.{devices};
ghost use Rattle.agent_core.specs.Stops.{HeldWaitsBelow};
ghost use Rattle.desk_rounds.specs.AgentRounds.{agent_point};
ghost use Rattle.desk_runs.specs.AgentRuns.{MakesAll, RoundsNext};
ghost use Rattle.desk_runs.specs.AgentSteps.{agent_scene};

use agent_core::Agent;
use agent_text::Pocket;
use bf_machine::Machine;
use desk_base::{Bytes, Clock, Put, Sink};
use desk_http::Link;
use desk_rounds::{RoundEnd, Rounder, agent_round};
use std::alloc::Global;

/// Why an agent stopped before it had made all its rounds.
#[derive(Clone, Copy)]
pub enum AgentStop {
    /// The clock gave no moment.
    Clock,
    /// A save failed.
    Pocket,
    /// The sink failed.
    Sink,
    /// Memory ran out.
    Memory,
}

/// Makes so many rounds, one after another, with a pause of the link between two. The lines of each are written as it ends. The first
/// round that breaks ends the run.
#[tactic(auto, using(crate::proofs::GrowingRounds::made_none, crate::proofs::GrowingRounds::made_cut))]
pub fn make_rounds<C: Clock, M: Machine, P: Pocket, L: Link, W: Sink>(
    alloc: Global,
    rounder: &Rounder,
    agent: &mut Agent,
    clock: &mut C,
    machine: &mut M,
    pocket: &mut P,
    link: &mut L,
    sink: &mut W,
    count: u32,
) -> Result<(), AgentStop>
    requires offset { IsOffset rounder.now.offset }
    requires waits { HeldWaitsBelow (M.told machine.old).started (shown_state agent.old).held }
    ensures { MakesAll rounder.now
        (agent_scene (agent_point (shown_state agent.old) (L.told link.old)
        (devices (M.told machine.old) (P.told pocket.old)) (C.told clock.old)) (W.told sink.old)) count result
        (agent_scene (agent_point (shown_state agent.new) (L.told link.new)
        (devices (M.told machine.new) (P.told pocket.new)) (C.told clock.new)) (W.told sink.new)) }
{
    for number in 0..count {
        pause_before(number, link);
        make_round(alloc, rounder, agent, clock, machine, pocket, link, sink)?;
    }
    Ok(())
}

/// Pauses where it isn't the first round, which has the number 0.
fn pause_before<L: Link>(number: u32, link: &mut L)
    ensures { L.told link.new ≡ L.told link.old }
{
    if number > 0 {
        link.pause();
    }
}

/// A round, and its lines.
fn make_round<C: Clock, M: Machine, P: Pocket, L: Link, W: Sink>(
    alloc: Global,
    rounder: &Rounder,
    agent: &mut Agent,
    clock: &mut C,
    machine: &mut M,
    pocket: &mut P,
    link: &mut L,
    sink: &mut W,
) -> Result<(), AgentStop>
    requires offset { IsOffset rounder.now.offset }
    requires waits { HeldWaitsBelow (M.told machine.old).started (shown_state agent.old).held }
    ensures round { RoundsNext rounder.now
        (agent_scene (agent_point (shown_state agent.old) (L.told link.old)
        (devices (M.told machine.old) (P.told pocket.old)) (C.told clock.old)) (W.told sink.old)) result
        (agent_scene (agent_point (shown_state agent.new) (L.told link.new)
        (devices (M.told machine.new) (P.told pocket.new)) (C.told clock.new)) (W.told sink.new)) }
    ensures waits { HeldWaitsBelow (M.told machine.new).started (shown_state agent.new).held }
{
    let mut lines = Bytes::new(alloc);
    match agent_round(
        alloc, rounder, agent, clock, machine, pocket, link, &mut lines,
    ) {
        RoundEnd::Done => say(sink, lines.as_slice()),
        RoundEnd::ClockFault => Err(AgentStop::Clock),
        RoundEnd::PocketFault => Err(AgentStop::Pocket),
        RoundEnd::Memory => Err(AgentStop::Memory),
    }
}

/// Writes the lines of a round.
fn say<W: Sink>(sink: &mut W, lines: &[u8]) -> Result<(), AgentStop>
    ensures { MatchResult result (λ _. Writes lines.now (W.told sink.old) Put.Done (W.told sink.new))
        (λ why. (why ≡ AgentStop.Sink) × Writes lines.now (W.told sink.old) Put.Failed (W.told sink.new)) }
{
    match sink.write(lines) {
        Put::Done => Ok(()),
        Put::Failed => Err(AgentStop::Sink),
    }
}
