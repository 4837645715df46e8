// The turn of a round, with files from the link.
ghost use Rattle.std.specs.Prelude.{◌≡◌, List};
ghost use Rattle.desk_base.specs.Moments.{IsMoment};
ghost use Rattle.desk_base.specs.Views.{ClockView};
ghost use Rattle.line_forms.specs.Numbers.{IsOffset};
ghost use Rattle.agent_core.specs.Agents.{shown_state};
ghost use Rattle.agent_core.specs.Devices.{devices};
ghost use Rattle.agent_core.specs.Stops.{HeldWaitsBelow};
ghost use Rattle.turn_lines.specs.TurnsWithFiles.{TurnsWithFiles};
ghost use Rattle.desk_rounds.specs.AgentRounds.{Makes, PrintsRound, PrintsTurns, SaysLines, TurnsAt, lines_of_turns, point, short_end};
ghost use Rattle.desk_rounds.specs.Files.{GivesFromLink, files_at};
ghost use Rattle.desk_rounds.specs.Lines.{Line};
ghost use Rattle.desk_rounds.specs.Ways.{way};

use crate::agent_rounds::{RoundEnd, Rounder};
use crate::asking::Miss;
use crate::files::LinkFiles;
use crate::line::say_missed;
use crate::part::Next;
use crate::way::say_switched;
use agent_core::{Agent, Turned};
use agent_text::Pocket;
use bf_machine::{Machine, Unseen};
use desk_base::Bytes;
use desk_http::Link;
use rel_lexer::Text;
use std::alloc::Global;
use turn_lines::{FileAsked, TurnTime, say_turn, turn_with_files};

/// The turn at a time, with files from the link, and its lines. Whatever the clock tells, it tells the same then.
pub(crate) fn turn_at<M: Machine, P: Pocket, L: Link>(
    alloc: Global,
    rounder: &Rounder,
    time: TurnTime,
    agent: &mut Agent,
    machine: &mut M,
    pocket: &mut P,
    link: &mut L,
    second: &mut Option<Text>,
    out: &mut Bytes,
) -> RoundEnd
    requires moment { IsMoment time.moment }
    requires offset { IsOffset rounder.now.offset }
    requires same { time.offset ≡ rounder.now.offset }
    requires waits { HeldWaitsBelow (M.told machine.old).started (shown_state agent.old).held }
    ensures turns { (clock : ClockView) → Makes (TurnsAt rounder.now time.moment)
        (point (shown_state agent.old) (way (L.told link.old) second.old) (devices (M.told machine.old) (P.told pocket.old)) clock)
        out.old result
        (point (shown_state agent.new) (way (L.told link.new) second.new) (devices (M.told machine.new) (P.told pocket.new)) clock)
        out.new }
    ensures waits { HeldWaitsBelow (M.told machine.new).started (shown_state agent.new).held }
{
    let before = second.is_some();
    let mut missed = None;
    let mut asked = Unseen::new();
    let turned = make_turns(
        alloc,
        agent,
        machine,
        pocket,
        link,
        second,
        &mut missed,
        &mut asked,
        time,
    );
    match say_switched(before, second, out) {
        Ok(()) => say_turns(rounder, time, &turned, missed, out),
        Err(_) => short_end(&turned),
    }
}

/// How turns that answered so end where there is no memory for a line of theirs.
fn short_end(turned: &Turned) -> RoundEnd
    ensures { result ≡ short_end turned.now }
{
    match turned {
        Turned::PocketFault => RoundEnd::PocketFault,
        _ => RoundEnd::Memory,
    }
}

/// Turns at one time, with files from the link. In `missed` stands why the file that was asked for last didn't come, where one didn't.
fn make_turns<M: Machine, P: Pocket, L: Link>(
    alloc: Global,
    agent: &mut Agent,
    machine: &mut M,
    pocket: &mut P,
    link: &mut L,
    second: &mut Option<Text>,
    missed: &mut Option<Miss>,
    asked: &mut Unseen<FileAsked>,
    time: TurnTime,
) -> Turned
    requires moment { IsMoment time.moment }
    requires offset { IsOffset time.offset }
    requires waits { HeldWaitsBelow (M.told machine.old).started (shown_state agent.old).held }
    ensures turns { TurnsWithFiles GivesFromLink (record { moment = time.moment; offset = time.offset }) (shown_state agent.old)
        (devices (M.told machine.old) (P.told pocket.old)) (files_at asked.old (way (L.told link.old) second.old) missed.old) result
        (shown_state agent.new) (devices (M.told machine.new) (P.told pocket.new))
        (files_at asked.new (way (L.told link.new) second.new) missed.new) }
    ensures waits { HeldWaitsBelow (M.told machine.new).started (shown_state agent.new).held }
{
    let mut files = LinkFiles {
        alloc,
        link,
        second,
        missed,
        asked,
    };
    turn_with_files(alloc, agent, machine, pocket, &mut files, time)
}

/// Appends what is printed of turns that answered so: why a wanted file didn't come, where one didn't, and their line.
fn say_turns(
    rounder: &Rounder,
    time: TurnTime,
    turned: &Turned,
    missed: Option<Miss>,
    out: &mut Bytes,
) -> RoundEnd
    ensures { (lines : List Line) × PrintsTurns rounder.now time.moment turned.now missed result lines
        × PrintsRound result lines out.old out.new }
{
    match turned {
        Turned::PocketFault => RoundEnd::PocketFault,
        Turned::Memory => RoundEnd::Memory,
        _ => say_lines(rounder, time, turned, missed, out),
    }
}

/// Appends both.
fn say_lines(
    rounder: &Rounder,
    time: TurnTime,
    turned: &Turned,
    missed: Option<Miss>,
    out: &mut Bytes,
) -> RoundEnd
    ensures { SaysLines (lines_of_turns rounder.now time.moment turned.now missed) result out.old out.new }
{
    match say_missed(missed, out) {
        Next::Memory => return RoundEnd::Memory,
        _ => {}
    }
    match say_turn(&rounder.name, time.moment, turned, out) {
        Ok(()) => RoundEnd::Done,
        Err(_) => RoundEnd::Memory,
    }
}
