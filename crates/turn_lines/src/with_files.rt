// Turns of an agent with files between them.
ghost use Rattle.std.specs.Prelude.{◌≡◌, ◌≤◌, ℕ};
ghost use Rattle.desk_base.specs.Moments.{IsMoment};
ghost use Rattle.line_forms.specs.Numbers.{IsOffset};
ghost use Rattle.agent_core.specs.Agents.{shown_state};
ghost use Rattle.agent_core.specs.Devices.{devices};
ghost use Rattle.agent_core.specs.Stops.{HeldWaitsBelow};
ghost use Rattle.turn_lines.specs.Fetching.{FetchesFile};
ghost use Rattle.turn_lines.specs.TurnsWithFiles as made;

use crate::giver::{Given, Giver};
use agent_core::{Agent, Turned, agents_are_sound, wants_come_to_an_end};
use agent_text::Pocket;
use bf_machine::Machine;
use std::alloc::Global;

/// When turns are made: the moment, in seconds since 1970-01-01 00:00:00 UTC, from 0 to 2^37, and the offset in minutes east of UTC,
/// from -840 to 840.
#[derive(Clone, Copy)]
pub struct TurnTime {
    pub moment: i64,
    pub offset: i64,
}

/// What became of a file that a giver was asked for.
#[derive(Clone, Copy)]
pub enum Fetched {
    /// It came, or that it isn't served, and the agent has that.
    Came,
    NotGot,
    Memory,
}

/// Turns of an agent at one time. While a turn wants a file, the giver is asked for it, the agent is supplied with what comes, and
/// makes another turn. The answer is the last turn's, of an attempt that began where it began in any of these turns. Where a file isn't
/// got, it is that of the turn that wants it. The program that the held attempt waits for is one that the machine started.
pub fn turn_with_files<M: Machine, P: Pocket, G: Giver>(
    alloc: Global,
    agent: &mut Agent,
    machine: &mut M,
    pocket: &mut P,
    giver: &mut G,
    time: TurnTime,
) -> Turned
    requires moment { IsMoment time.moment }
    requires offset { IsOffset time.offset }
    requires waits { HeldWaitsBelow (M.told machine.old).started (shown_state agent.old).held }
    ensures turns { made.TurnsWithFiles G.gives (record { moment = time.moment; offset = time.offset }) (shown_state agent.old)
        (devices (M.told machine.old) (P.told pocket.old)) (G.told giver.old) result (shown_state agent.new)
        (devices (M.told machine.new) (P.told pocket.new)) (G.told giver.new) }
    // The program that the held attempt waits for then is one that the machine started.
    ensures waits { HeldWaitsBelow (M.told machine.new).started (shown_state agent.new).held }
    ensures started { (M.told machine.old).started ≤ (M.told machine.new).started }
    ensures holds { G.holds giver.new ≡ G.holds giver.old }
{
    // Proof: an attempt that was given the file that it wanted can want fewer from then on.
    wants_come_to_an_end();
    let mut turned = agent.turn(alloc, machine, pocket, time.moment, time.offset);
    'files: loop {
        let Turned::Wants { id, began, digest } = turned else {
            return turned;
        };
        // Proof: the state that a turn leaves is sound.
        agents_are_sound(agent);
        match fetch(agent, giver, &digest) {
            Fetched::Came => {}
            Fetched::NotGot => return Turned::Wants { id, began, digest },
            Fetched::Memory => return Turned::Memory,
        }
        let next = agent.turn(alloc, machine, pocket, time.moment, time.offset);
        turned = with_begun(began, next);
    }
}

/// Asks for a file, and supplies the agent with what comes.
fn fetch<G: Giver>(agent: &mut Agent, giver: &mut G, digest: &[u8; 32]) -> Fetched
    ensures fetches { FetchesFile G.gives digest.now (shown_state agent.old) (G.told giver.old) result (shown_state agent.new)
        (G.told giver.new) }
    ensures waits { (started : ℕ) → HeldWaitsBelow started (shown_state agent.old).held
        → HeldWaitsBelow started (shown_state agent.new).held }
    ensures holds { G.holds giver.new ≡ G.holds giver.old }
{
    match giver.give(digest) {
        Given::File(bytes) => {
            agent.supply(digest, Some(bytes));
            Fetched::Came
        }
        Given::NotServed => {
            agent.supply(digest, None);
            Fetched::Came
        }
        Given::NotGot => Fetched::NotGot,
        Given::Memory => Fetched::Memory,
    }
}

/// The same answer, of an attempt that began in a turn before where `begun` says so.
fn with_begun(begun: bool, turned: Turned) -> Turned
    ensures { result ≡ made.with_begun begun turned }
{
    match turned {
        Turned::Held {
            id,
            began,
            component,
            line,
        } => Turned::Held {
            id,
            began: begun || began,
            component,
            line,
        },
        Turned::Wants { id, began, digest } => Turned::Wants {
            id,
            began: begun || began,
            digest,
        },
        Turned::Ended {
            id,
            began,
            outcome,
            fail,
        } => Turned::Ended {
            id,
            began: begun || began,
            outcome,
            fail,
        },
        other => other,
    }
}
