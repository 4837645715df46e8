// Trying the actions: the first that is due.
ghost use Rattle.std.specs.Prelude.{◌≡◌, ◌∷◌, ◌↔◌, [], IsTrue, None};
ghost use Rattle.std.specs.List.{filter_map};
ghost use Rattle.act_rules.specs.Tallies.{StandsFor};
ghost use Rattle.bf_machine.specs.Views.{MachineView};
ghost use Rattle.agent_text.specs.Histories.{rows_at};
ghost use Rattle.agent_attempt.specs.ReadBlocks.{shown_block};
ghost use Rattle.agent_attempt.specs.ActionContents.{actions_of, as_action};
ghost use Rattle.agent_attempt.specs.Relevance.{MayBegin};
ghost use Rattle.agent_core.specs.Inside.{AreSoundOn, IsSoundKept, state_of};
ghost use Rattle.agent_core.specs.Saving.{OrMemory};
ghost use Rattle.agent_state.specs.States.{broken_action};
ghost use Rattle.agent_core.specs.Devices.{devices};
ghost use Rattle.agent_core.specs.Marking.{AreMarksOf, unmarked_state};
ghost use Rattle.agent_core.specs.Steps.{AreMarked, FindsDue, MayTry, TriesOne};
ghost use Rattle.agent_core.specs.Turns.{Finishes, Tries};

use crate::clearing::Marked;
use crate::kept_state::KeptState;
use crate::turned::Turned;
use act_rules::Tally;
use agent_attempt::{Attempt, Found, ReadAction, ReadBlock, Time, may_begin, wanted};
use agent_state::rows_of;
use agent_text::{Histories, Pocket};
use bf_machine::Machine;
use std::alloc::Global;

impl KeptState {
    /// Marks what isn't relevant any more as cleared, and tries the actions. Before a beginning nothing of the state is changed.
    pub(crate) fn try_actions<M: Machine, P: Pocket>(
        &mut self,
        alloc: Global,
        machine: &mut M,
        pocket: &mut P,
        time: &Time,
    ) -> Turned
        requires sound { IsSoundKept self.old }
        requires free { self.old.held ≡ None }
        requires ended { broken_action (state_of self.old) ≡ None }
        ensures tries { Tries time.now (state_of self.old) (actions_of self.old.sites)
            (devices (M.told machine.old) (P.told pocket.old)) result (state_of self.new)
            (devices (M.told machine.new) (P.told pocket.new)) }
        ensures sound { AreSoundOn (M.told machine.new).started self.new }
    {
        let marked = match self.mark(alloc, machine, time) {
            Ok(marked) => marked,
            Err(stop) => return stop,
        };
        match self.find_due(alloc, machine, time, &self.histories) {
            Ok(Some(attempt)) => self.begin(alloc, machine, pocket, marked.before, attempt, time),
            Ok(None) => self.idle(alloc, pocket, marked),
            Err(stop) => {
                self.unmark(marked.before);
                stop
            }
        }
    }

    /// Tries the actions in ascending order of their ids: the attempt of the first that is due, as it begins.
    fn find_due<M: Machine>(
        &self,
        alloc: Global,
        machine: &mut M,
        time: &Time,
        marked: &Histories,
    ) -> Result<Option<Attempt>, Turned>
        requires sound { IsSoundKept self.now }
        requires marked { AreMarked self.now.histories marked.now }
        ensures { FindsDue time.now (state_of self.now) marked.now (actions_of self.now.sites)
            (M.told machine.old) result (M.told machine.new) }
    {
        for (place, block) in self.sites.actions().iter().enumerate() {
            if !self.may_try(alloc, time, block, place, marked) {
                continue;
            }
            if let Some(attempt) = self.try_block(alloc, machine, time, block, place, marked)? {
                return Ok(Some(attempt));
            }
        }
        Ok(None)
    }

    /// Whether the action of this block, if it is an action's, may begin by its rows: what can be said without a look. Its tally stands at
    /// this place, as does its history where the actions before it have some, so they are looked at there first.
    fn may_try(
        &self,
        alloc: Global,
        time: &Time,
        block: &ReadBlock,
        place: usize,
        marked: &Histories,
    ) -> bool
        requires sound { IsSoundKept self.now }
        requires marked { AreMarked self.now.histories marked.now }
        ensures { IsTrue result ↔ MayTry time.now block.now marked.now }
    {
        let ReadBlock::Action(action) = block else {
            return false;
        };
        let rows = rows_of(marked.rows_near(action.action().id, place));
        let tally = self.tally_for(alloc, action, place, marked);
        may_begin(action, rows, &tally, time)
    }

    /// The attempt of the action of this block, as it begins, where it is due. The block stands at this place.
    fn try_block<M: Machine>(
        &self,
        alloc: Global,
        machine: &mut M,
        time: &Time,
        block: &ReadBlock,
        place: usize,
        marked: &Histories,
    ) -> Result<Option<Attempt>, Turned>
        requires { MayTry time.now block.now marked.now }
        ensures { FindsDue time.now (state_of self.now) marked.now (filter_map as_action (shown_block block.now ∷ []))
            (M.told machine.old) result (M.told machine.new) }
    {
        match block {
            ReadBlock::Action(action) => self.try_one(alloc, machine, time, action, place, marked),
            ReadBlock::Fixlet(_) | ReadBlock::Baseline(_) => Ok(None),
        }
    }

    /// The attempt of an action that may begin, as it begins, where it is due.
    fn try_one<M: Machine>(
        &self,
        alloc: Global,
        machine: &mut M,
        time: &Time,
        action: &ReadAction,
        place: usize,
        marked: &Histories,
    ) -> Result<Option<Attempt>, Turned>
        requires { MayBegin time.now action.now (rows_at action.now.id marked.now) }
        ensures { TriesOne time.now (state_of self.now) marked.now action.now
            (M.told machine.old) result (M.told machine.new) }
    {
        let content = self.sites.content_near(action.action(), place);
        match wanted(alloc, &self.name, action, content, machine, time) {
            Found::Yes => {}
            Found::No => return Ok(None),
            Found::Failed => return Err(Turned::MachineFault),
            Found::Memory => return Err(Turned::Memory),
        }
        let Some(content) = content else {
            return Ok(None);
        };
        let rows = rows_of(marked.rows_near(action.action().id, place));
        let number = rows.len() as u32 + 1;
        match Attempt::begin(alloc, action, content, number, time.offset()) {
            Ok(attempt) => Ok(Some(attempt)),
            Err(_) => Err(Turned::Memory),
        }
    }

    /// The tally that stands for the rows of an action, marked or not.
    fn tally_for(
        &self,
        alloc: Global,
        action: &ReadAction,
        place: usize,
        marked: &Histories,
    ) -> Tally
        requires sound { IsSoundKept self.now }
        requires marked { AreMarked self.now.histories marked.now }
        ensures { StandsFor result action.now.rules.retries (rows_at action.now.id marked.now) }
    {
        let action = action.action();
        self.tallies
            .standing(alloc, action.id, action.rules.retries, marked, place)
    }

    /// No action is due: the marks stand.
    fn idle<P: Pocket>(&mut self, alloc: Global, pocket: &mut P, marked: Marked) -> Turned
        requires { AreMarksOf marked.before.items self.old }
        ensures finishes { (machine : MachineView) → OrMemory (unmarked_state marked.before.items self.old)
            (devices machine (P.told pocket.old))
            (Finishes marked.any Turned.Idle (state_of self.old) (devices machine (P.told pocket.old)))
            result (state_of self.new) (devices machine (P.told pocket.new)) }
        ensures held { (state_of self.new).held ≡ (state_of self.old).held }
        ensures sound { IsSoundKept self.new }
    {
        if !marked.any && !self.can_report() {
            return Turned::Idle;
        }
        let Ok(spare) = self.take_spare(alloc) else {
            self.unmark(marked.before);
            return Turned::Memory;
        };
        self.finish(pocket, spare, marked.any, Turned::Idle)
    }
}
