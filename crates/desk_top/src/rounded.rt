// An agent over its machine, with an upstream.
ghost use Rattle.std.specs.Prelude.{◌≡◌, ◌++◌, IfOk, OnOk};
ghost use Rattle.desk_base.specs.Views.{ClockView, SinkView};
ghost use Rattle.line_forms.specs.Names.{IsName};
ghost use Rattle.line_forms.specs.Numbers.{IsOffset};
ghost use Rattle.agent_core.specs.Agents.{shown_state};
ghost use Rattle.agent_core.specs.Stops.{HeldWaitsBelow};
ghost use Rattle.desk_top.specs.Rounded.{AgentEnds, CountsAgent, EndsRounds, NamesAll, SaysBadPocket, agent_at, agent_devices, bad_pocket, rounder_of, upstreams_of};

use crate::Status;
use crate::command::AgentWords;
use agent_core::{Agent, Opened};
use agent_text::Pocket;
use bf_machine::Machine;
use desk_base::{Bytes, Clock, Put, Sink, decimal};
use desk_door::Link;
use desk_rounds::{Rounder, Upstreams};
use desk_runs::{make_rounds, what_ends_rounds_was_counted};
use rel_lexer::Text;
use std::alloc::{AllocError, Global};

/// Names the upstream, the pocket and the work folder, and has the agent of the pocket's text make the rounds that the words ask for.
pub(crate) fn agent_asked<W: Sink, M: Machine, P: Pocket, L: Link, C: Clock>(
    alloc: Global,
    asked: AgentWords,
    machine: &mut M,
    pocket: &mut P,
    link: &mut L,
    clock: &mut C,
    sink: &mut W,
) -> Status
    requires name { IsName asked.name.now }
    requires offset { IsOffset asked.offset }
    ensures ends { AgentEnds asked.entry result
        (agent_devices (M.told machine.old) (P.told pocket.old) (L.told link.old) (C.told clock.old) (W.told sink.old))
        (agent_devices (M.told machine.new) (P.told pocket.new) (L.told link.new) (C.told clock.new) (W.told sink.new))
        (sink.new ≡ sink.old) (clock.new ≡ clock.old) }
    ensures counts { CountsAgent result
        (agent_devices (M.told machine.old) (P.told pocket.old) (L.told link.old) (C.told clock.old) (W.told sink.old))
        (agent_devices (M.told machine.new) (P.told pocket.new) (L.told link.new) (C.told clock.new) (W.told sink.new)) }
{
    match name_places(asked, machine, pocket, link) {
        Ok(()) => {}
        Err(_) => return Status::Memory,
    }
    let Ok(rounder) = rounder_of(asked) else {
        return Status::Memory;
    };
    match Agent::open(alloc, &rounder.name, pocket) {
        Opened::Agent(agent) => make_all(
            alloc,
            &rounder,
            agent,
            asked.count,
            machine,
            pocket,
            link,
            clock,
            sink,
        ),
        Opened::BadPocket(line) => refuse(alloc, line, sink),
        Opened::PocketFault => Status::Pocket,
        Opened::Memory => Status::Memory,
    }
}

/// Whose rounds they are. The error is want of memory.
fn rounder_of(asked: AgentWords) -> Result<Rounder, AllocError>
    requires { IsOffset asked.offset }
    ensures { IfOk result (λ rounder. rounder ≡ rounder_of asked.entry) }
{
    Ok(Rounder {
        name: asked.name.copy()?,
        offset: asked.offset,
        upstreams: upstreams_of(asked.upstream, asked.second)?,
    })
}

/// The two upstreams of its rounds, where a second one is named. The error is want of memory.
fn upstreams_of(upstream: &Text, second: Option<&Text>) -> Result<Option<Upstreams>, AllocError>
    ensures { IfOk result (λ upstreams. upstreams ≡ upstreams_of upstream.now second.entry) }
{
    let Some(second) = second else {
        return Ok(None);
    };
    Ok(Some(Upstreams {
        first: upstream.copy()?,
        second: second.copy()?,
    }))
}

/// Has an agent that was opened make so many rounds.
fn make_all<W: Sink, M: Machine, P: Pocket, L: Link, C: Clock>(
    alloc: Global,
    rounder: &Rounder,
    agent: Agent,
    count: u32,
    machine: &mut M,
    pocket: &mut P,
    link: &mut L,
    clock: &mut C,
    sink: &mut W,
) -> Status
    requires offset { IsOffset rounder.now.offset }
    requires waits { HeldWaitsBelow (M.told machine.old).started (shown_state agent).held }
    ensures ends { EndsRounds rounder.now count result
        (agent_at (shown_state agent)
        (agent_devices (M.told machine.old) (P.told pocket.old) (L.told link.old) (C.told clock.old) (W.told sink.old)))
        (agent_devices (M.told machine.new) (P.told pocket.new) (L.told link.new) (C.told clock.new) (W.told sink.new)) }
    ensures counts { CountsAgent result
        (agent_devices (M.told machine.old) (P.told pocket.old) (L.told link.old) (C.told clock.old) (W.told sink.old))
        (agent_devices (M.told machine.new) (P.told pocket.new) (L.told link.new) (C.told clock.new) (W.told sink.new)) }
{
    // Proof: how rounds end tells which counts rose.
    what_ends_rounds_was_counted();
    let mut agent = agent;
    match make_rounds(
        alloc, rounder, &mut agent, clock, machine, pocket, link, sink, count,
    ) {
        Ok(()) => Status::Done,
        Err(stop) => Status::of_rounds(stop),
    }
}

/// Names the upstream, the pocket and the work folder. The error is want of memory.
fn name_places<M: Machine, P: Pocket, L: Link>(
    asked: AgentWords,
    machine: &mut M,
    pocket: &mut P,
    link: &mut L,
) -> Result<(), AllocError>
    ensures { (clock : ClockView) (sink : SinkView) → NamesAll asked.entry
        (agent_devices (M.told machine.old) (P.told pocket.old) (L.told link.old) clock sink) result
        (agent_devices (M.told machine.new) (P.told pocket.new) (L.told link.new) clock sink) }
{
    link.open(asked.upstream)?;
    pocket.open(asked.pocket)?;
    machine.open(asked.work)
}

/// Writes the refusal of a pocket's text, alone.
fn refuse<W: Sink>(alloc: Global, number: u32, sink: &mut W) -> Status
    ensures { SaysBadPocket result number (W.told sink.old) (W.told sink.new) (sink.new ≡ sink.old) }
{
    let mut line = Bytes::new(alloc);
    if say_bad_pocket(number, &mut line).is_err() {
        return Status::Memory;
    }
    match sink.write(line.as_slice()) {
        Put::Done => Status::Refused,
        Put::Failed => Status::Sink,
    }
}

/// Appends what is said of a pocket's first bad line.
#[tactic(auto, unfolding(crate::specs::Rounded::bad_pocket))]
fn say_bad_pocket(number: u32, out: &mut Bytes) -> Result<(), AllocError>
    ensures { OnOk result (out.new ≡ out.old ++ bad_pocket number) }
{
    out.extend(b"bad pocket ")?;
    decimal(u64::from(number), out)?;
    out.push(b'\n')
}
