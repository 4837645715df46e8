// Attempts that end, go on, or were broken off.
ghost use Rattle.std.specs.Prelude.{◌≡◌, IfOk, IfSome, IsSomeAnd, IsTrue, None, Some, false};
ghost use Rattle.act_rules.specs.Rows.{last_row};
ghost use Rattle.bf_machine.specs.Views.{MachineView};
ghost use Rattle.agent_text.specs.SavedRows.{IsSavedNote};
ghost use Rattle.agent_text.specs.Histories.{rows_at, with_ended};
ghost use Rattle.report_text.specs.ReportRows.{IsExit};
ghost use Rattle.agent_attempt.specs.declared.went.Went.TheVariants.{Ended};
ghost use Rattle.agent_attempt.specs.Going.{HasNote};
ghost use Rattle.agent_attempt.specs.Stages.{shown_attempt};
ghost use Rattle.agent_core.specs.Inside.{AreSoundOn, CanGoOn, IsSoundKept, state_of};
ghost use Rattle.agent_core.specs.Saving.{OrMemory};
ghost use Rattle.agent_state.specs.States.{State, broken_action, is_of_another, with_held, with_histories};
ghost use Rattle.agent_core.specs.Devices.{devices};
ghost use Rattle.agent_core.specs.Steps.{Suffices};
ghost use Rattle.agent_core.specs.Turns.{TurnGoesOn, Interrupts, outcome_of};

use crate::kept_state::KeptState;
use crate::turned::Turned;
use act_rules::{NO_NOTE, Note, Outcome};
use agent_attempt::{Attempt, Fail, Time, Went};
use agent_state::{Spare, is_of_another, is_running};
use agent_text::{Pocket, SaveResult, changed_histories_can_be_saved, saved_texts_are_short};
use bf_machine::Machine;
use std::alloc::{AllocError, Global};
use std::mem::drop;

impl KeptState {
    /// What the end of a turn takes, with the histories as they are and one report more. The error is want of memory; the state is
    /// then as it was.
    pub(crate) fn take_spare(&mut self, alloc: Global) -> Result<Spare, AllocError>
        requires sound { IsSoundKept self.old }
        ensures spare { IfOk result (λ spare. Suffices 1 spare self.new) }
        ensures state { state_of self.new ≡ state_of self.old }
        ensures sound { IsSoundKept self.new }
    {
        self.histories.keep_texts(alloc)?;
        self.outbox.make_texts(alloc)?;
        self.outbox.reserve()?;
        Spare::take(alloc, &self.name, &self.histories, self.outbox.made())
    }

    /// The least action whose last attempt was broken off: it runs, and isn't held.
    pub(crate) fn broken_action(&self) -> Option<u64>
        requires { IsSoundKept self.now }
        ensures { result ≡ broken_action (state_of self.now) }
    {
        let held = &self.held;
        let history = self.histories.as_slice().iter().find(|history| is_running(history)
            && is_of_another(history.action, held))?;
        Some(history.action)
    }

    /// A broken attempt ends as interrupted.
    pub(crate) fn interrupt_broken<P: Pocket>(
        &mut self,
        alloc: Global,
        pocket: &mut P,
        id: u64,
        time: &Time,
    ) -> Turned
        requires sound { IsSoundKept self.old }
        requires broken { broken_action (state_of self.old) ≡ Some id }
        ensures interrupts { (machine : MachineView) → Interrupts time.now id (state_of self.old)
            (devices machine (P.told pocket.old)) result (state_of self.new) (devices machine (P.told pocket.new)) }
        ensures sound { IsSoundKept self.new }
        ensures held { (state_of self.new).held ≡ (state_of self.old).held }
    {
        let Ok(mut spare) = self.take_spare(alloc) else {
            return Turned::Memory;
        };
        self.end_attempt(id, time, Outcome::Interrupted, NO_NOTE);
        saved_texts_are_short();
        match self.save_in(pocket, &mut spare.text) {
            SaveResult::Done => self.finish(pocket, spare, false, Turned::Interrupted { id }),
            SaveResult::Failed => {
                self.unsaved = true;
                Turned::PocketFault
            }
            SaveResult::Memory => {
                self.unsaved = true;
                Turned::Memory
            }
        }
    }

    /// The attempt of an action that runs ends.
    fn end_attempt(&mut self, id: u64, time: &Time, outcome: Outcome, note: Note)
        requires sound { IsSoundKept self.old }
        requires running { IsSomeAnd (last_row (rows_at id self.old.histories)) (λ row. row.end ≡ None) }
        requires free { IsTrue (is_of_another id (state_of self.old).held) }
        requires note { IsSavedNote outcome note }
        ensures state { state_of self.new
            ≡ with_histories (with_ended id time.now.moment outcome note self.old.histories) (state_of self.old) }
        ensures room { self.new.outbox ≡ self.old.outbox }
        ensures sound { IsSoundKept self.new }
    {
        changed_histories_can_be_saved();
        self.histories.end(id, time.moment(), outcome, note);
        self.tallies.end(id, outcome);
    }

    /// The attempt that was held goes on.
    pub(crate) fn resume_held<M: Machine, P: Pocket>(
        &mut self,
        alloc: Global,
        machine: &mut M,
        pocket: &mut P,
        attempt: Attempt,
        time: &Time,
    ) -> Turned
        requires { CanGoOn (M.told machine.old).started (shown_attempt attempt) self.old }
        ensures goes { OrMemory (with_held (Some (shown_attempt attempt)) (state_of self.old))
            (devices (M.told machine.old) (P.told pocket.old))
            (TurnGoesOn time.now false (shown_attempt attempt) (with_held (Some (shown_attempt attempt)) (state_of self.old))
            (devices (M.told machine.old) (P.told pocket.old)))
            result (state_of self.new)
            (devices (M.told machine.new) (P.told pocket.new)) }
        ensures sound { AreSoundOn (M.told machine.new).started self.new }
    {
        match self.take_spare(alloc) {
            Ok(spare) => self.go_on_and_finish(alloc, machine, pocket, attempt, false, spare, time),
            Err(_) => {
                self.held = Some(attempt);
                Turned::Memory
            }
        }
    }

    /// An attempt goes on, and the turn ends with it.
    pub(crate) fn go_on_and_finish<M: Machine, P: Pocket>(
        &mut self,
        alloc: Global,
        machine: &mut M,
        pocket: &mut P,
        mut attempt: Attempt,
        began: bool,
        spare: Spare,
        time: &Time,
    ) -> Turned
        requires can { CanGoOn (M.told machine.old).started (shown_attempt attempt) self.old }
        requires spare { Suffices 1 spare self.old }
        ensures goes { (s : State) → with_held None s ≡ state_of self.old → TurnGoesOn time.now began (shown_attempt attempt) s
            (devices (M.told machine.old) (P.told pocket.old)) result (state_of self.new)
            (devices (M.told machine.new) (P.told pocket.new)) }
        ensures sound { AreSoundOn (M.told machine.new).started self.new }
    {
        let id = attempt.action_id();
        match attempt.go_on(alloc, machine, time) {
            Went::Held { component, line } => {
                self.held = Some(attempt);
                let would = Turned::Held {
                    id,
                    began,
                    component,
                    line,
                };
                self.finish(pocket, spare, false, would)
            }
            Went::Wants { digest } => {
                self.held = Some(attempt);
                self.finish(pocket, spare, false, Turned::Wants { id, began, digest })
            }
            Went::Ended { fail, note } => {
                drop(attempt);
                let outcome = outcome_of(&fail);
                note_fits(&fail, note);
                self.end_attempt(id, time, outcome, note);
                let would = Turned::Ended {
                    id,
                    began,
                    outcome,
                    fail,
                };
                self.finish(pocket, spare, true, would)
            }
            Went::Memory => {
                self.held = Some(attempt);
                Turned::Memory
            }
        }
    }
}

/// The note of an attempt that has ended can be saved.
fn note_fits(fail: &Option<Fail>, note: Note)
    requires { HasNote (Ended fail.now note) }
    ensures { IsSavedNote (outcome_of fail.now) note }
{
    exit_fits(note.exit);
    // numbers are known to fit once they are read
    if let Some(fail) = fail {
        let _place = (fail.component, fail.line);
    }
}

/// An exit code is a number of 64 bits.
fn exit_fits(exit: Option<i64>)
    ensures { IfSome exit IsExit }
{
    if let Some(exit) = exit {
        let _exit = exit;
    }
}

/// How an attempt ended.
fn outcome_of(fail: &Option<Fail>) -> Outcome
    ensures { result ≡ outcome_of fail.now }
{
    match fail {
        None => Outcome::Fixed,
        Some(_) => Outcome::Failed,
    }
}
