// The beginning of an attempt.
ghost use Rattle.std.specs.Prelude.{◌≡◌, IfOk, OnErr, None, Some};
ghost use Rattle.agent_text.specs.Befores.{before_of, with_before};
ghost use Rattle.agent_text.specs.Histories.{with_begun};
ghost use Rattle.agent_attempt.specs.Stages.{shown_attempt};
ghost use Rattle.agent_core.specs.Inside.{AreSoundOn, IsSoundKept, state_of};
ghost use Rattle.agent_core.specs.Saving.{OrMemory};
ghost use Rattle.agent_state.specs.States.{HeldRuns, new_row, with_beginning};
ghost use Rattle.agent_core.specs.Devices.{devices};
ghost use Rattle.agent_core.specs.Marked.{undone};
ghost use Rattle.agent_core.specs.Marking.{AreMarksOf, unmarked_state};
ghost use Rattle.agent_core.specs.Steps.{BeginsAs, CanBegin, SavesBeginning, Suffices};

use crate::kept_state::KeptState;
use crate::turned::Turned;
use act_rules::{NO_NOTE, Row};
use agent_attempt::{Attempt, Time};
use agent_state::Spare;
use agent_text::{
    Before, Pocket, SaveResult, changed_histories_can_be_saved, saved_texts_are_short,
};
use bf_machine::Machine;
use std::alloc::{AllocError, Global};
use std::mem::drop;

impl KeptState {
    /// An attempt begins: its row is saved before its first command. Until then the state is as it was.
    pub(crate) fn begin<M: Machine, P: Pocket>(
        &mut self,
        alloc: Global,
        machine: &mut M,
        pocket: &mut P,
        before: Vec<Before>,
        attempt: Attempt,
        time: &Time,
    ) -> Turned
        requires marks { AreMarksOf before.items self.old }
        requires begins { CanBegin (shown_attempt attempt) self.old.histories }
        ensures begins { OrMemory (unmarked_state before.items self.old) (devices (M.told machine.old) (P.told pocket.old))
            (BeginsAs time.now (unmarked_state before.items self.old) (state_of self.old) (shown_attempt attempt) (devices (M.told machine.old) (P.told pocket.old)))
            result (state_of self.new) (devices (M.told machine.new) (P.told pocket.new)) }
        ensures sound { AreSoundOn (M.told machine.new).started self.new }
    {
        match self.save_beginning(alloc, pocket, before, &attempt, time) {
            Ok(spare) => self.go_on_and_finish(alloc, machine, pocket, attempt, true, spare, time),
            Err(stop) => {
                drop(attempt);
                stop
            }
        }
    }

    /// Saves the row of an attempt that begins, and answers what the end of its turn takes. Where it isn't saved no row is added.
    fn save_beginning<P: Pocket>(
        &mut self,
        alloc: Global,
        pocket: &mut P,
        before: Vec<Before>,
        attempt: &Attempt,
        time: &Time,
    ) -> Result<Spare, Turned>
        requires marks { AreMarksOf before.items self.old }
        requires begins { CanBegin (shown_attempt attempt.now) self.old.histories }
        ensures saves { SavesBeginning (unmarked_state before.items self.old) (state_of self.old)
            (with_beginning attempt.now.action.id time.now.moment (state_of self.old))
            (P.told pocket.old) result (state_of self.new) (P.told pocket.new) }
        ensures spare { IfOk result (λ spare. Suffices 1 spare self.new) }
        ensures runs { IfOk result (λ spare. HeldRuns (Some (shown_attempt attempt.now)) self.new.histories) }
        ensures free { self.new.held ≡ None }
        ensures sound { IsSoundKept self.new }
    {
        let Ok(row) = self.add_row(alloc, attempt, time) else {
            self.unmark(before);
            return Err(Turned::Memory);
        };
        saved_texts_are_short();
        let Ok(mut spare) = self.take_spare(alloc) else {
            self.take_back(row, before);
            return Err(Turned::Memory);
        };
        match self.save_in(pocket, &mut spare.text) {
            SaveResult::Done => Ok(spare),
            SaveResult::Failed => {
                self.histories.put_back(row);
                self.unsaved = true;
                Err(Turned::PocketFault)
            }
            SaveResult::Memory => {
                self.take_back(row, before);
                Err(Turned::Memory)
            }
        }
    }

    /// Puts back what stood before a row was added, and then what stood before marks.
    fn take_back(&mut self, row: Before, before: Vec<Before>)
        ensures { self.new ≡ record self.old { histories = undone before.items (with_before row self.old.histories) } }
    {
        self.histories.put_back(row);
        self.unmark(before);
    }

    /// Adds the row of an attempt that begins, and answers what stood of its action. At an error, want of memory, nothing has changed.
    fn add_row(
        &mut self,
        alloc: Global,
        attempt: &Attempt,
        time: &Time,
    ) -> Result<Before, AllocError>
        requires sound { IsSoundKept self.old }
        requires free { self.old.held ≡ None }
        requires begins { CanBegin (shown_attempt attempt.now) self.old.histories }
        ensures ok { IfOk result (λ before. (before ≡ before_of attempt.now.action.id self.old.histories)
            × (self.new ≡ record self.old {
              histories = with_begun attempt.now.action.id
                  (new_row attempt.now.row time.now.moment) self.old.histories;
            })) }
        ensures err { OnErr result (self.new ≡ self.old) }
        ensures sound { IsSoundKept self.new }
    {
        changed_histories_can_be_saved();
        let id = attempt.action_id();
        let before = self.histories.before(id)?;
        let row = Row {
            number: attempt.row(),
            begun: time.moment(),
            end: None,
            cleared: None,
            note: NO_NOTE,
        };
        self.histories.begin(alloc, id, row)?;
        Ok(before)
    }
}
