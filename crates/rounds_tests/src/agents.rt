// Rounds of agents: what is printed, how each ends, what the link was asked, and what the agent has to report then. Each function owns
// one dear thing at most, which it drops once; each table is lent to one function that tells the first row that isn't so.
ghost use Rattle.std.specs.Prelude.{ℕ, IfSome, length};
ghost use Rattle.agent_core.specs.Agents.{shown_state};
ghost use Rattle.agent_core.specs.Stops.{HeldWaitsBelow};

use crate::agent_rows::{FILES, Fails, REPORTS, Row, TURNS};
use crate::second_rows::SECOND;
use crate::upstream::{link, show_asked};
use agent_core::{Agent, MemoryPocket, Opened};
use bf_machine::{PlainMachine, read_world};
use desk_base::{Bytes, StepClock, decimal};
use desk_door::MemoryLink;
use desk_rounds::{RoundEnd, Rounder, Upstreams, agent_round};
use line_forms::read_name;
use rel_lexer::Text;
use std::alloc::{AllocError, Global};
use std::mem::drop;
use std::test::Fail;

const WORLD: &str = "world\nname pc1\nsystem 12.4 Debian\noffset 60\nmoment 1000\nend\n";

/// An agent that has gathered nothing yet.
fn opened(alloc: Global, pocket: &mut MemoryPocket) -> Option<Agent>
    ensures { IfSome result (λ agent. (started : ℕ) → HeldWaitsBelow started (shown_state agent).held) }
{
    let name = Text::from_str(alloc, read_name(b"pc1")?).ok()?;
    match Agent::open(alloc, &name, pocket) {
        Opened::Agent(agent) => Some(agent),
        _ => None,
    }
}

/// The number of the first call, where that is to fail.
fn first_if(alloc: Global, fails: bool) -> Result<Vec<u32>, AllocError> {
    let mut numbers = Vec::new(alloc);
    if fails {
        numbers.push(1)?;
    }
    Ok(numbers)
}

/// The machine.
fn machine(alloc: Global, fails: Fails) -> Option<PlainMachine> {
    let world = read_world(alloc, WORLD.as_bytes()).ok()?;
    let looks = first_if(alloc, matches!(fails, Fails::Look)).ok()?;
    Some(PlainMachine::new(alloc, world, looks, Vec::new(alloc), Vec::new(alloc)))
}

/// A clock of the moments of two turns.
fn clock(alloc: Global, fails: Fails) -> Option<StepClock> {
    let moments = [1000i64, 1001].to_vec(alloc).ok()?;
    let calls = first_if(alloc, matches!(fails, Fails::Clock)).ok()?;
    Some(StepClock::new(alloc, moments, calls))
}

/// How a round ended, where it isn't whole.
fn end_word(ended: RoundEnd) -> &'static str {
    match ended {
        RoundEnd::Done => "",
        RoundEnd::ClockFault => "clock fault\n",
        RoundEnd::PocketFault => "pocket fault\n",
        RoundEnd::Memory => "memory\n",
    }
}

/// The upstreams `u` and `v`, or none.
fn upstreams(alloc: Global, has_second: bool) -> Result<Option<Upstreams>, AllocError> {
    if !has_second {
        return Ok(None);
    }
    Ok(Some(Upstreams {
        first: Text::from_str(alloc, "u")?,
        second: Text::from_str(alloc, "v")?,
    }))
}

/// Appends what a round prints.
fn one_round(
    alloc: Global,
    has_second: bool,
    clock: &mut StepClock,
    machine: &mut PlainMachine,
    agent: &mut Agent,
    pocket: &mut MemoryPocket,
    link: &mut MemoryLink,
    out: &mut Bytes,
) -> Option<()>
    requires waits { HeldWaitsBelow (length machine.old.world.started) (shown_state agent.old).held }
    ensures waits { HeldWaitsBelow (length machine.new.world.started) (shown_state agent.new).held }
{
    let rounder = Rounder {
        name: Text::from_str(alloc, "pc1").ok()?,
        offset: 60,
        upstreams: upstreams(alloc, has_second).ok()?,
    };
    let ended = agent_round(alloc, &rounder, agent, clock, machine, pocket, link, out);
    drop(rounder);
    out.extend(end_word(ended).as_bytes()).ok()
}

/// Appends what the rounds of a row print.
fn rounds(
    alloc: Global,
    row: &Row,
    clock: &mut StepClock,
    machine: &mut PlainMachine,
    agent: &mut Agent,
    pocket: &mut MemoryPocket,
    link: &mut MemoryLink,
    out: &mut Bytes,
) -> Option<()>
    requires waits { HeldWaitsBelow (length machine.old.world.started) (shown_state agent.old).held }
{
    'rounds: for _ in 0..row.rounds {
        one_round(
            alloc,
            row.has_second,
            clock,
            machine,
            agent,
            pocket,
            link,
            out,
        )?;
    }
    Some(())
}

/// Appends what the rounds of a row print, with its clock.
fn rounds_in_time(
    alloc: Global,
    row: &Row,
    machine: &mut PlainMachine,
    agent: &mut Agent,
    pocket: &mut MemoryPocket,
    link: &mut MemoryLink,
    out: &mut Bytes,
) -> Option<()>
    requires waits { HeldWaitsBelow (length machine.old.world.started) (shown_state agent.old).held }
{
    let mut clock = clock(alloc, row.fails)?;
    let made = rounds(alloc, row, &mut clock, machine, agent, pocket, link, out);
    drop(clock);
    made
}

/// Appends what the rounds of a row print, on a machine of its own.
fn rounds_of(
    alloc: Global,
    row: &Row,
    agent: &mut Agent,
    pocket: &mut MemoryPocket,
    link: &mut MemoryLink,
    out: &mut Bytes,
) -> Option<()>
    requires waits { (started : ℕ) → HeldWaitsBelow started (shown_state agent.old).held }
{
    let mut machine = machine(alloc, row.fails)?;
    let made = rounds_in_time(alloc, row, &mut machine, agent, pocket, link, out);
    drop(machine);
    made
}

/// Appends the numbers of the reports that an agent has.
fn show_outbox(agent: &Agent, out: &mut Bytes) -> Result<(), AllocError> {
    for report in agent.outbox() {
        out.extend(b"has ")?;
        decimal(report.seq, out)?;
        out.push(b'\n')?;
    }
    Ok(())
}

/// Appends what an agent's rounds print over a link, what it was asked, and what the agent has then.
fn show_over(
    alloc: Global,
    row: &Row,
    agent: &mut Agent,
    pocket: &mut MemoryPocket,
    link: &mut MemoryLink,
    out: &mut Bytes,
) -> Option<()>
    requires waits { (started : ℕ) → HeldWaitsBelow started (shown_state agent.old).held }
{
    rounds_of(alloc, row, agent, pocket, link, out)?;
    show_asked(link, out).ok()?;
    show_outbox(agent, out).ok()
}

/// Appends what comes of a row with this exchange, for an agent that has nothing yet.
fn show_row(
    alloc: Global,
    row: &Row,
    text: &str,
    agent: &mut Agent,
    pocket: &mut MemoryPocket,
    out: &mut Bytes,
) -> Option<()>
    requires waits { (started : ℕ) → HeldWaitsBelow started (shown_state agent.old).held }
{
    let mut link = link(alloc, row.before, text, row.behind).ok()?;
    let shown = show_over(alloc, row, agent, pocket, &mut link, out);
    drop(link);
    shown
}

/// Appends what comes of a row with this exchange, for a new agent.
fn show_new(
    alloc: Global,
    row: &Row,
    text: &str,
    pocket: &mut MemoryPocket,
    out: &mut Bytes,
) -> Option<()> {
    let mut agent = opened(alloc, pocket)?;
    let shown = show_row(alloc, row, text, &mut agent, pocket, out);
    drop(agent);
    shown
}

/// Whether the wanted comes of a row with this exchange.
fn is_so(alloc: Global, row: &Row, text: &str) -> bool {
    let Ok(saves) = first_if(alloc, matches!(row.fails, Fails::Save)) else {
        return false;
    };
    let mut pocket = MemoryPocket::new(alloc, Vec::new(alloc), saves);
    let mut out = Bytes::new(alloc);
    let shown = show_new(alloc, row, text, &mut pocket, &mut out);
    drop(pocket);
    shown.is_some() && out.as_slice() == row.wanted.as_bytes()
}

/// The number of the first exchange of a row with which another thing comes.
fn first_other_exchange(alloc: Global, row: &Row) -> Option<usize> {
    for (number, text) in row.any_of.iter().enumerate() {
        if !is_so(alloc, row, text) {
            return Some(number);
        }
    }
    None
}

/// The first row of which another thing comes, and that number.
fn first_other(alloc: Global, rows: &[Row]) -> Option<(&'static str, usize)> {
    for row in rows {
        if let Some(number) = first_other_exchange(alloc, row) {
            return Some((row.name, number));
        }
    }
    None
}

#[test]
fn an_agent_turns_between_gathering_and_posting(rt: HostRuntime) -> Result<(), Fail> {
    assert_eq!(rt; first_other(rt.alloc(), &TURNS), None);
    Ok(())
}

#[test]
fn wanted_files_come_over_the_link(rt: HostRuntime) -> Result<(), Fail> {
    assert_eq!(rt; first_other(rt.alloc(), &FILES), None);
    Ok(())
}

#[test]
fn what_is_in_the_outbox_is_posted(rt: HostRuntime) -> Result<(), Fail> {
    assert_eq!(rt; first_other(rt.alloc(), &REPORTS), None);
    Ok(())
}

#[test]
fn the_second_upstream_is_asked_from_the_first_failure_of_a_round(
    rt: HostRuntime,
) -> Result<(), Fail> {
    assert_eq!(rt; first_other(rt.alloc(), &SECOND), None);
    Ok(())
}
