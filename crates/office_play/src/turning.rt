// The word `turn`.
ghost use Rattle.std.specs.Prelude.{◌≡◌, length, All, IfOk, OnOk};
ghost use Rattle.desk_base.specs.Moments.{IsMoment};
ghost use Rattle.line_forms.specs.Numbers.{IsOffset};
ghost use Rattle.fix_site.specs.Sites.{IsSite};
ghost use Rattle.agent_core.specs.Agents.{shown_state};
ghost use Rattle.agent_core.specs.Stops.{HeldWaitsBelow};
ghost use Rattle.office_rules.specs.ComputerWords.{GathersEach, Turns};
ghost use Rattle.office_rules.specs.Offices.{IsSoundComputer};
ghost use Rattle.turn_lines.specs.TurnsWithFiles.{TurnsWithFiles};
ghost use Rattle.office_play.specs.Files.{RowsServe};
ghost use Rattle.office_play.specs.Kept.{HasAccepted};
ghost use Rattle.office_play.specs.Links.{HasMail, IsGoodOffice, IsNamed, KeepsNames};
ghost use Rattle.office_play.specs.Played.{Plays};
ghost use Rattle.office_play.specs.States.{kept_of, shown_computer, shown_entry};
ghost use Rattle.office_play.specs.Turning.{MakesTurnsOver, TurnsOver, files_of, told_by};

use crate::computer::PlayedComputer;
use crate::office::Office;
use crate::served::ServedFiles;
use agent_core::{Agent, Gathered, Turned, agents_are_sound, turns_are_steps};
use agent_text::SurePocket;
use bf_machine::{SureMachine, Unseen};
use desk_base::Bytes;
use desk_keep::SureKeeper;
use fix_site::Site;
use rel_lexer::Text;
use std::alloc::{AllocError, Global};
use turn_lines::{FileAsked, TurnTime, say_again, say_turn, turn_with_files};

impl Office {
    /// A computer's agent gathers the sites of its relay, and turns.
    pub(crate) fn turn(
        &mut self,
        name: &Text,
        moment: i64,
        out: &mut Bytes,
    ) -> Result<(), AllocError>
        requires good { IsGoodOffice (kept_of self.old) }
        requires accepted { HasAccepted (kept_of self.old).rows }
        requires name { IsNamed name.now (kept_of self.old).computers }
        requires moment { IsMoment moment }
        ensures plays { OnOk result (Plays (Turns name.now moment) (kept_of self.old) out.old (kept_of self.new) out.new) }
        ensures names { OnOk result (KeepsNames (kept_of self.old) (kept_of self.new)) }
    {
        let place = self.computer_place(name);
        let at = self.relay_place(&self.computers[place].relay);
        let sites = self.relays[at].relay.sites();
        self.computers[place].turn(self.alloc, sites, &mut self.keeper, moment, out)
    }
}

impl PlayedComputer {
    /// The agent gathers sites and turns at a moment, with the server's files; what was done is said, and then what the turn came to.
    fn turn(
        &mut self,
        alloc: Global,
        sites: &[Site],
        keeper: &mut SureKeeper,
        moment: i64,
        out: &mut Bytes,
    ) -> Result<(), AllocError>
        requires moment { IsMoment moment }
        requires sites { All IsSite sites.now }
        requires sound { IsSoundComputer (shown_computer self.old.1) }
        requires mail { HasMail self.old.0 (shown_state self.old.1.agent) self.old.1.saved }
        requires accepted { HasAccepted keeper.old }
        ensures turns { OnOk result (TurnsOver moment keeper.old sites.now (shown_entry self.old) out.old (shown_entry self.new)
            out.new) }
        ensures sound { OnOk result (IsSoundComputer (shown_computer self.new.1)) }
        ensures mail { OnOk result (HasMail self.new.0 (shown_state self.new.1.agent) self.new.1.saved) }
        ensures name { self.new.0 ≡ self.old.0 }
        ensures rows { keeper.new ≡ keeper.old }
    {
        // Proof: each turn takes a mail of the computer to one of the computer.
        turns_are_steps();
        gather_each(alloc, &mut self.agent, sites)?;
        self.machine.begin_anew();
        let turned = turned(
            alloc,
            &mut self.agent,
            &mut self.machine,
            &mut self.pocket,
            keeper,
            moment,
        )?;
        // Proof: the agent is sound.
        agents_are_sound(&self.agent);
        say_again(&mut self.again, self.machine.acted(), moment, out)?;
        say_turn(&self.name, moment, &turned, out)
    }
}

/// What turns of an agent at a moment come to.
fn turned(
    alloc: Global,
    agent: &mut Agent,
    machine: &mut SureMachine,
    pocket: &mut SurePocket,
    keeper: &mut SureKeeper,
    moment: i64,
) -> Result<Turned, AllocError>
    requires moment { IsMoment moment }
    requires waits { HeldWaitsBelow (length machine.old.world.started) (shown_state agent.old).held }
    requires accepted { HasAccepted keeper.old }
    ensures turns { IfOk result (λ turned. MakesTurnsOver moment keeper.old
        (record { agent = shown_state agent.old; machine = machine.old; pocket = pocket.old }) turned
        (record { agent = shown_state agent.new; machine = machine.new; pocket = pocket.new })) }
    ensures waits { HeldWaitsBelow (length machine.new.world.started) (shown_state agent.new).held }
    ensures rows { keeper.new ≡ keeper.old }
{
    let time = time_in(machine, moment);
    let mut asked = Unseen::new();
    match make_turns(alloc, agent, machine, pocket, keeper, &mut asked, time) {
        Turned::Memory => Err(AllocError),
        turned => Ok(turned),
    }
}

/// Turns of an agent at one time, with the server's files. Which were asked for only clauses see.
fn make_turns(
    alloc: Global,
    agent: &mut Agent,
    machine: &mut SureMachine,
    pocket: &mut SurePocket,
    keeper: &mut SureKeeper,
    asked: &mut Unseen<FileAsked>,
    time: TurnTime,
) -> Turned
    requires moment { IsMoment time.moment }
    requires offset { IsOffset time.offset }
    requires waits { HeldWaitsBelow (length machine.old.world.started) (shown_state agent.old).held }
    ensures turns { TurnsWithFiles RowsServe (record { moment = time.moment; offset = time.offset }) (shown_state agent.old)
        (told_by machine.old pocket.old) (files_of asked.old keeper.old) result (shown_state agent.new)
        (told_by machine.new pocket.new) (files_of asked.new keeper.new) }
    ensures waits { HeldWaitsBelow (length machine.new.world.started) (shown_state agent.new).held }
{
    let mut files = ServedFiles {
        alloc,
        keeper,
        asked,
    };
    turn_with_files(alloc, agent, machine, pocket, &mut files, time)
}

/// When a computer with this machine turns at a moment.
fn time_in(machine: &SureMachine, moment: i64) -> TurnTime
    ensures moment { result.moment ≡ moment }
    ensures offset { result.offset ≡ machine.now.world.offset }
    ensures in_range { IsOffset result.offset }
{
    TurnTime {
        moment,
        offset: machine.world().offset(),
    }
}

/// The agent gathers sites, one after another.
fn gather_each(alloc: Global, agent: &mut Agent, sites: &[Site]) -> Result<(), AllocError>
    requires { All IsSite sites.now }
    ensures gathers { OnOk result (GathersEach sites.now (shown_state agent.old) (shown_state agent.new)) }
    ensures held { (shown_state agent.new).held ≡ (shown_state agent.old).held }
{
    for site in sites {
        if let Gathered::Memory = agent.gather(alloc, site) {
            return Err(AllocError);
        }
    }
    Ok(())
}
