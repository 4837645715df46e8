// A round of an agent.
ghost use Rattle.std.specs.Prelude.{◌≡◌};
ghost use Rattle.line_forms.specs.Numbers.{IsOffset};
ghost use Rattle.agent_core.specs.Agents.{shown_state};
ghost use Rattle.agent_core.specs.Devices.{devices};
ghost use Rattle.agent_core.specs.Stops.{HeldWaitsBelow};
ghost use Rattle.desk_rounds.specs.AgentRounds.{AgentRound, GathersFirst, Makes, RestOfRound, TakesTurn, agent_point, end_of, point};
ghost use Rattle.desk_rounds.specs.Ways.{way};

use crate::agent_turns::turn_at;
use crate::gathering::gather_sites;
use crate::part::Next;
use crate::posting::post_reports;
use crate::way::{Upstreams, open_first};
use agent_core::{Agent, agents_are_sound};
use agent_text::Pocket;
use bf_machine::Machine;
use desk_base::{Bytes, Clock, Told};
use desk_http::Link;
use rel_lexer::Text;
use std::alloc::Global;
use turn_lines::TurnTime;

/// How a round ends.
#[derive(Clone, Copy)]
pub enum RoundEnd {
    /// It is whole.
    Done,
    /// The clock gave no moment.
    ClockFault,
    /// A save failed.
    PocketFault,
    /// Want of memory.
    Memory,
}

/// Whose rounds they are: the name of the computer, for the lines of its turns, and the offset of these, in minutes east of UTC, from -840
/// to 840.
#[derive(Drop)]
pub struct Rounder {
    pub name: Text,
    pub offset: i64,
    /// Both upstreams, where there are two. Where there is one, the link is opened to it before the first round.
    pub upstreams: Option<Upstreams>,
}

/// One round: the newer sites are gathered, the agent makes its turn at one moment of the clock, with files from the link, and the reports
/// that it has then are posted. Its lines are appended to `out`, which is of no use after want of memory. The program that the held attempt
/// waits for is one that the machine started.
pub fn agent_round<C: Clock, M: Machine, P: Pocket, L: Link>(
    alloc: Global,
    rounder: &Rounder,
    agent: &mut Agent,
    clock: &mut C,
    machine: &mut M,
    pocket: &mut P,
    link: &mut L,
    out: &mut Bytes,
) -> RoundEnd
    requires offset { IsOffset rounder.now.offset }
    requires waits { HeldWaitsBelow (M.told machine.old).started (shown_state agent.old).held }
    ensures round { Makes (AgentRound rounder.now)
        (agent_point (shown_state agent.old) (L.told link.old) (devices (M.told machine.old) (P.told pocket.old)) (C.told clock.old))
        out.old result
        (agent_point (shown_state agent.new) (L.told link.new) (devices (M.told machine.new) (P.told pocket.new)) (C.told clock.new))
        out.new }
    // The program that the held attempt waits for then is one that the machine started.
    ensures waits { HeldWaitsBelow (M.told machine.new).started (shown_state agent.new).held }
{
    let Ok(mut second) = open_first(link, &rounder.upstreams) else {
        return RoundEnd::Memory;
    };
    whole_round(
        alloc,
        rounder,
        agent,
        clock,
        machine,
        pocket,
        link,
        &mut second,
        out,
    )
}

/// What a round does after that.
fn whole_round<C: Clock, M: Machine, P: Pocket, L: Link>(
    alloc: Global,
    rounder: &Rounder,
    agent: &mut Agent,
    clock: &mut C,
    machine: &mut M,
    pocket: &mut P,
    link: &mut L,
    second: &mut Option<Text>,
    out: &mut Bytes,
) -> RoundEnd
    requires offset { IsOffset rounder.now.offset }
    requires waits { HeldWaitsBelow (M.told machine.old).started (shown_state agent.old).held }
    ensures round { Makes (GathersFirst rounder.now)
        (point (shown_state agent.old) (way (L.told link.old) second.old)
        (devices (M.told machine.old) (P.told pocket.old)) (C.told clock.old))
        out.old result
        (point (shown_state agent.new) (way (L.told link.new) second.new)
        (devices (M.told machine.new) (P.told pocket.new)) (C.told clock.new))
        out.new }
    ensures waits { HeldWaitsBelow (M.told machine.new).started (shown_state agent.new).held }
{
    agents_are_sound(agent);
    match end_of(gather_sites(alloc, agent, link, second, out)) {
        RoundEnd::Done => turn_and_post(
            alloc, rounder, agent, clock, machine, pocket, link, second, out,
        ),
        ended => ended,
    }
}

/// How a part ends, by what would come next in it.
fn end_of(then: Next) -> RoundEnd
    ensures { result ≡ end_of then }
{
    match then {
        Next::Item | Next::Part => RoundEnd::Done,
        Next::Memory => RoundEnd::Memory,
    }
}

/// The turn of a round, and then the reports that the agent has.
fn turn_and_post<C: Clock, M: Machine, P: Pocket, L: Link>(
    alloc: Global,
    rounder: &Rounder,
    agent: &mut Agent,
    clock: &mut C,
    machine: &mut M,
    pocket: &mut P,
    link: &mut L,
    second: &mut Option<Text>,
    out: &mut Bytes,
) -> RoundEnd
    requires offset { IsOffset rounder.now.offset }
    requires waits { HeldWaitsBelow (M.told machine.old).started (shown_state agent.old).held }
    ensures rest { Makes (RestOfRound rounder.now)
        (point (shown_state agent.old) (way (L.told link.old) second.old)
        (devices (M.told machine.old) (P.told pocket.old)) (C.told clock.old))
        out.old result
        (point (shown_state agent.new) (way (L.told link.new) second.new)
        (devices (M.told machine.new) (P.told pocket.new)) (C.told clock.new))
        out.new }
    ensures waits { HeldWaitsBelow (M.told machine.new).started (shown_state agent.new).held }
{
    match take_turn(
        alloc, rounder, agent, clock, machine, pocket, link, second, out,
    ) {
        RoundEnd::Done => {
            agents_are_sound(agent);
            end_of(post_reports(alloc, agent, link, second, out))
        }
        ended => ended,
    }
}

/// The turn of a round, at one moment of the clock, and its lines.
fn take_turn<C: Clock, M: Machine, P: Pocket, L: Link>(
    alloc: Global,
    rounder: &Rounder,
    agent: &mut Agent,
    clock: &mut C,
    machine: &mut M,
    pocket: &mut P,
    link: &mut L,
    second: &mut Option<Text>,
    out: &mut Bytes,
) -> RoundEnd
    requires offset { IsOffset rounder.now.offset }
    requires waits { HeldWaitsBelow (M.told machine.old).started (shown_state agent.old).held }
    ensures turns { Makes (TakesTurn rounder.now)
        (point (shown_state agent.old) (way (L.told link.old) second.old)
        (devices (M.told machine.old) (P.told pocket.old)) (C.told clock.old))
        out.old result
        (point (shown_state agent.new) (way (L.told link.new) second.new)
        (devices (M.told machine.new) (P.told pocket.new)) (C.told clock.new))
        out.new }
    ensures waits { HeldWaitsBelow (M.told machine.new).started (shown_state agent.new).held }
{
    match clock.now() {
        Told::Moment(moment) => {
            let time = TurnTime {
                moment,
                offset: rounder.offset,
            };
            turn_at(
                alloc, rounder, time, agent, machine, pocket, link, second, out,
            )
        }
        Told::Failed => RoundEnd::ClockFault,
    }
}
