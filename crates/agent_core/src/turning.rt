// One turn.
ghost use Rattle.std.specs.Prelude.{◌≢◌, ◌≤◌};
ghost use Rattle.desk_base.specs.Moments.{IsMoment};
ghost use Rattle.line_forms.specs.Numbers.{IsOffset};
ghost use Rattle.agent_core.specs.Agents.{shown_state};
ghost use Rattle.agent_core.specs.Devices.{devices};
ghost use Rattle.agent_core.specs.Inside.{AreSoundOn, state_of};
ghost use Rattle.agent_core.specs.Turns.{Steps, Turn};
ghost use Rattle.agent_attempt.specs.ActionContents.{actions_of};
ghost use Rattle.agent_core.specs.Stops.{Agrees, BothLawful, HaveRules, HeldWaitsBelow, Table, TurnHasCause, TurnIsBacked};

use crate::agent::Agent;
use crate::kept_state::KeptState;
use crate::turned::Turned;
use act_rules::lawful_rows_stay_lawful;
use agent_attempt::Time;
use agent_text::{Pocket, SaveResult, changed_histories_can_be_saved, one_saved};
use bf_machine::Machine;
use line_forms::lines_are_read_again;
use std::alloc::Global;

impl Agent {
    /// One turn. What stands unsaved is saved, and then a broken attempt ends, or the held one goes on, or the actions are tried and
    /// the first that is due begins. The moment is in seconds since 1970-01-01 00:00:00 UTC, from 0 to 2^37, and the offset in minutes
    /// east of UTC, from -840 to 840. The program that the held attempt waits for is one that the machine started.
    pub fn turn<M: Machine, P: Pocket>(
        &mut self,
        alloc: Global,
        machine: &mut M,
        pocket: &mut P,
        moment: i64,
        offset: i64,
    ) -> Turned
        requires moment { IsMoment moment }
        requires offset { IsOffset offset }
        requires waits { HeldWaitsBelow (M.told machine.old).started (shown_state self.old).held }
        ensures turns { Turn (record { moment = moment; offset = offset }) (shown_state self.old)
            (devices (M.told machine.old) (P.told pocket.old)) result (shown_state self.new)
            (devices (M.told machine.new) (P.told pocket.new)) }
        // The program that the held attempt waits for then is one that the machine started.
        ensures waits { HeldWaitsBelow (M.told machine.new).started (shown_state self.new).held }
        ensures started { (M.told machine.old).started ≤ (M.told machine.new).started }
        // An agent and a pocket that agreed agree, at every answer.
        ensures agrees { Agrees (shown_state self.old).held (P.told pocket.old).saved
            → Agrees (shown_state self.new).held (P.told pocket.new).saved }
        // Lawful rows stay lawful, the agent's and the saved ones, under rules that the gathered actions have.
        ensures lawful { (table : Table) → HaveRules table (actions_of self.old.sites)
            → BothLawful table (shown_state self.old) (P.told pocket.old).saved
            → BothLawful table (shown_state self.new) (P.told pocket.new).saved }
        // An attempt of which a command was done in this turn is backed by the saved text.
        ensures backed { Agrees (shown_state self.old).held (P.told pocket.old).saved
            → (M.told machine.new).acted ≢ (M.told machine.old).acted
            → TurnIsBacked (shown_state self.old) (shown_state self.new) (P.told pocket.new).saved }
        ensures cause { TurnHasCause (devices (M.told machine.old) (P.told pocket.old)) result
            (devices (M.told machine.new) (P.told pocket.new)) }
    {
        changed_histories_can_be_saved();
        lawful_rows_stay_lawful();
        one_saved();
        lines_are_read_again();
        let time = Time::new(alloc, moment, offset);
        self.kept.turn(alloc, machine, pocket, &time)
    }
}

impl KeptState {
    /// One turn: what stands unsaved is saved, and then the steps come.
    fn turn<M: Machine, P: Pocket>(
        &mut self,
        alloc: Global,
        machine: &mut M,
        pocket: &mut P,
        time: &Time,
    ) -> Turned
        requires { AreSoundOn (M.told machine.old).started self.old }
        ensures turns { Turn time.now (state_of self.old)
            (devices (M.told machine.old) (P.told pocket.old)) result (state_of self.new)
            (devices (M.told machine.new) (P.told pocket.new)) }
        ensures sound { AreSoundOn (M.told machine.new).started self.new }
    {
        if !self.unsaved {
            return self.step(alloc, machine, pocket, time);
        }
        match self.save(alloc, pocket) {
            SaveResult::Done => self.step(alloc, machine, pocket, time),
            SaveResult::Failed => Turned::PocketFault,
            SaveResult::Memory => Turned::Memory,
        }
    }

    /// The first of the steps that applies.
    fn step<M: Machine, P: Pocket>(
        &mut self,
        alloc: Global,
        machine: &mut M,
        pocket: &mut P,
        time: &Time,
    ) -> Turned
        requires { AreSoundOn (M.told machine.old).started self.old }
        ensures steps { Steps time.now (state_of self.old)
            (devices (M.told machine.old) (P.told pocket.old)) result (state_of self.new)
            (devices (M.told machine.new) (P.told pocket.new)) }
        ensures sound { AreSoundOn (M.told machine.new).started self.new }
    {
        if let Some(id) = self.broken_action() {
            return self.interrupt_broken(alloc, pocket, id, time);
        }
        match self.held.take() {
            Some(attempt) => self.resume_held(alloc, machine, pocket, attempt, time),
            None => self.try_actions(alloc, machine, pocket, time),
        }
    }
}
