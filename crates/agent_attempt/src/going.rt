// How an attempt goes on, component by component.
ghost use Rattle.std.specs.Prelude.{◌≡◌, ◌<◌, ◌*◌, List, ◌∷◌, length, drop, None};
ghost use Rattle.bf_machine.specs.Views.{IsLater, MachineView};
ghost use Rattle.script_run.specs.Asking.{When};
ghost use Rattle.agent_attempt.specs.declared.attempt.Part.{Part};
ghost use Rattle.agent_attempt.specs.Attempts.{StageWaitsBelow};
ghost use Rattle.agent_attempt.specs.Going.{ended, with_failure, GoesTo, HasNote, SameAttempt};
ghost use Rattle.agent_attempt.specs.Stages.{shown_attempt, shown_stage};
ghost use Rattle.agent_attempt.specs.AttemptSteps.{Leaves, MakesStep, StepsByFailing};

use crate::attempt::{Attempt, Failure, Part, Stage};
use crate::time::Time;
use crate::went::{Fail, Went};
use act_rules::Note;
use bf_machine::Machine;
use script_run::Cause;
use std::alloc::Global;
use std::collections::VecDeque;
use std::mem;

impl Attempt {
    /// Goes on until it is held, wants a file or ends. Where it ends it is done with. The program that it waits for is one that the
    /// machine started, and no program is forgotten.
    pub fn go_on<M: Machine>(&mut self, alloc: Global, machine: &mut M, time: &Time) -> Went
        requires waits { StageWaitsBelow (M.told machine.old).started (shown_stage self.old.stage) }
        ensures goes { GoesTo time.now (shown_attempt self.old)
            (M.told machine.old) result
            (M.told machine.new) (shown_attempt self.new) }
        ensures waits { StageWaitsBelow (M.told machine.new).started (shown_stage self.new.stage) }
        ensures note { HasNote result }
        ensures same { SameAttempt (shown_attempt self.old) (shown_attempt self.new) }
        ensures later { IsLater (M.told machine.old) (M.told machine.new) }
    {
        'steps: loop {
            if let Some(went) = self.step(alloc, machine, time) {
                return went;
            }
        }
    }

    /// One step of the component at hand: an answer where it stops there.
    fn step<M: Machine>(&mut self, alloc: Global, machine: &mut M, time: &Time) -> Option<Went>
        requires waits { StageWaitsBelow (M.told machine.old).started (shown_stage self.old.stage) }
        ensures { MakesStep time.now (shown_attempt self.old)
            (M.told machine.old) result
            (M.told machine.new) (shown_attempt self.new) }
    {
        if self.left.is_empty() {
            return Some(self.ended());
        }
        match mem::replace(&mut self.stage, Stage::Coming) {
            Stage::Coming => self.come(alloc, machine, time),
            Stage::Starting => self.start(alloc),
            Stage::Running(run) => self.run(alloc, machine, time, run),
            Stage::Judging(exit) => self.judge(alloc, machine, time, exit),
        }
    }

    /// What the attempt has come to.
    fn ended(&mut self) -> Went
        ensures ended { result ≡ ended self.old.past }
        ensures note { HasNote result }
        ensures left { self.new ≡ record self.old { past = record { failure = None; exit = self.old.past.exit } } }
    {
        match self.failure.take() {
            None => Went::Ended {
                fail: None,
                note: Note {
                    exit: self.exit,
                    place: None,
                },
            },
            Some(failure) => {
                let place = (failure.fail.component, failure.fail.line);
                Went::Ended {
                    note: Note {
                        exit: failure.exit,
                        place: Some(place),
                    },
                    fail: Some(failure.fail),
                }
            }
        }
    }

    /// The component at hand has failed.
    pub(crate) fn fail(&mut self, line: u32, cause: Cause, exit: Option<i64>) -> Option<Went>
        requires stage { self.old.stage ≡ Stage.Coming }
        requires some { 0 < length self.old.left }
        ensures steps { (at : When) (machine : MachineView) (part : Part) (left : List Part) → self.old.left ≡ part ∷ left
            → StepsByFailing at (shown_attempt self.old) part left line cause exit machine result (shown_attempt self.new) }
        ensures stage { self.new.stage ≡ Stage.Coming }
        ensures leaves { Leaves (shown_attempt self.old) (4 * length self.old.left) result (shown_attempt self.new) }
    {
        self.keep_failure(line, cause, exit);
        if self.action.all_members {
            return self.next();
        }
        Some(self.ended())
    }

    /// The failure of the component at hand counts where none stands before it.
    fn keep_failure(&mut self, line: u32, cause: Cause, exit: Option<i64>)
        ensures { (part : Part) (left : List Part) → self.old.left ≡ part ∷ left
            → self.new ≡ record self.old { past = with_failure part line cause exit self.old.past } }
    {
        if self.failure.is_some() {
            return;
        }
        let fail = Fail {
            component: self.component(),
            line,
            cause,
        };
        self.failure = Some(Failure { fail, exit });
    }

    /// The next component comes.
    pub(crate) fn next(&mut self) -> Option<Went>
        requires { self.old.stage ≡ Stage.Coming }
        ensures none { result ≡ None }
        ensures next { (part : Part) (left : List Part) → self.old.left ≡ part ∷ left
            → self.new ≡ record self.old { left = left; stage = Stage.Coming } }
    {
        leave(&mut self.left);
        None
    }
}

/// The first of the components is behind.
fn leave(parts: &mut VecDeque<Part>)
    ensures { parts.new.items ≡ drop 1 parts.old.items }
{
    parts.pop_front();
}
