// How the component at hand goes on.
ghost use Rattle.std.specs.Prelude.{◌≡◌, ◌<◌, ◌+◌, ◌*◌, ℕ, List, ◌∷◌, length, Some, None, IfOk};
ghost use Rattle.bf_machine.specs.Views.{MachineView};
ghost use Rattle.script_run.specs.Asking.{When};
ghost use Rattle.script_run.specs.RunPlaces.{WaitsBelow, from, wanted_at};
ghost use Rattle.script_run.specs.Advances.{wanted_by};
ghost use Rattle.agent_attempt.specs.declared.attempt.Part.{Part};
ghost use Rattle.agent_attempt.specs.Attempts.{PlainStage, StageWaitsBelow, coming, issue_date, judging, running, starting};
ghost use Rattle.agent_attempt.specs.Going.{exit_at};
ghost use Rattle.agent_attempt.specs.ReadTexts.{IsScriptOf};
ghost use Rattle.agent_attempt.specs.Relevance.{FixletIs, Succeeds};
ghost use Rattle.agent_attempt.specs.Stages.{FirstHasScript, IsRun, shown_attempt, shown_stage};
ghost use Rattle.agent_attempt.specs.AttemptSteps.{Leaves, MakesStep, OpensRun, StepsByFound, StepsByRan, first_component, stage_behind, with_stage};

use crate::attempt::{Attempt, Stage};
use crate::found::Found;
use crate::time::Time;
use crate::went::Went;
use bf_machine::Machine;
use rel_inspect::Pairs;
use rel_lexer::Text;
use rel_value::{Value, text};
use script_run::{Cause, Ran, Run};
use script_text::Script;
use std::alloc::{AllocError, Global};
use std::mem::drop;

impl Attempt {
    /// The component at hand is asked whether it is relevant.
    pub(crate) fn come<M: Machine>(
        &mut self,
        alloc: Global,
        machine: &mut M,
        time: &Time,
    ) -> Option<Went>
        requires stage { self.old.stage ≡ Stage.Coming }
        requires some { 0 < length self.old.left }
        ensures { MakesStep time.now (with_stage coming (shown_attempt self.old))
            (M.told machine.old) result
            (M.told machine.new) (shown_attempt self.new) }
    {
        let found = self.is_relevant(alloc, machine, time);
        self.after_coming(found)
    }

    /// What comes of an attempt by whether the component at hand is relevant. One that isn't is passed over.
    fn after_coming(&mut self, found: Found) -> Option<Went>
        requires stage { self.old.stage ≡ Stage.Coming }
        requires some { 0 < length self.old.left }
        requires script { found ≡ Found.Yes → FirstHasScript self.old.left }
        ensures steps { (at : When) (machine : MachineView) (part : Part) (left : List Part) → self.old.left ≡ part ∷ left
            → StepsByFound at (shown_attempt self.old) part left found machine result (shown_attempt self.new) }
        ensures waits { (started : ℕ) → StageWaitsBelow started (shown_stage self.new.stage) }
        ensures leaves { Leaves (shown_attempt self.old) (4 * length self.old.left + 3) result (shown_attempt self.new) }
    {
        match found {
            Found::Yes => {
                self.stage = Stage::Starting;
                None
            }
            Found::No => self.next(),
            Found::Failed => self.fail(0, Cause::MachineFault, None),
            Found::Memory => Some(Went::Memory),
        }
    }

    /// Whether the component at hand is relevant.
    fn is_relevant<M: Machine>(&self, alloc: Global, machine: &mut M, time: &Time) -> Found
        ensures { (part : Part) (left : List Part) → self.now.left ≡ part ∷ left
            → FixletIs time.now part.fixlet (M.told machine.old) result (M.told machine.new) }
    {
        match self.left.front() {
            Some(part) => part.fixlet.is_relevant(alloc, machine, time),
            None => Found::No,
        }
    }

    /// The script of the component at hand begins.
    pub(crate) fn start(&mut self, alloc: Global) -> Option<Went>
        requires some { 0 < length self.old.left }
        requires script { FirstHasScript self.old.left }
        ensures { (at : When) (machine : MachineView)
            → MakesStep at (with_stage starting (shown_attempt self.old)) machine result machine (shown_attempt self.new) }
    {
        match self.opened(alloc) {
            Ok(run) => {
                self.stage = Stage::Running(run);
                None
            }
            Err(_) => {
                self.stage = Stage::Starting;
                Some(Went::Memory)
            }
        }
    }

    /// The script of the component at hand, at its beginning. The error is want of memory, here and below.
    fn opened(&self, alloc: Global) -> Result<Run, AllocError>
        requires some { 0 < length self.now.left }
        requires script { FirstHasScript self.now.left }
        ensures opens { IfOk result (λ run. (part : Part) (left : List Part) → self.now.left ≡ part ∷ left
            → OpensRun part.fixlet.script (issue_date (shown_attempt self.now)) run) }
        ensures waits { IfOk result (λ run. (started : ℕ) → WaitsBelow started run.place) }
        ensures wanted { IfOk result (λ run. wanted_at run.place ≡ None) }
    {
        let script = self.script()?;
        let parameters = self.parameters(alloc)?;
        Run::open(alloc, script, parameters)
    }

    /// The script of the component at hand.
    fn script(&self) -> Result<Script, AllocError>
        requires some { 0 < length self.now.left }
        requires script { FirstHasScript self.now.left }
        ensures { IfOk result (λ script. (part : Part) (left : List Part) → self.now.left ≡ part ∷ left
            → IsScriptOf part.fixlet.script (Some script)) }
    {
        match self.left.front() {
            Some(part) => part.fixlet.script(),
            None => unreachable!(),
        }
    }

    /// The one parameter with which a script begins.
    fn parameters(&self, alloc: Global) -> Result<Pairs, AllocError>
        ensures { IfOk result (λ parameters. parameters ≡ issue_date (shown_attempt self.now)) }
    {
        let issued = match text(alloc, &Value::Time(self.action.issued), self.offset) {
            Ok(issued) => issued,
            Err(_) => return Err(AllocError),
        };
        let mut parameters = Pairs::new(alloc);
        parameters.push(Text::from_str(alloc, "action issue date")?, issued)?;
        Ok(parameters)
    }

    /// The script of the component at hand goes on.
    pub(crate) fn run<M: Machine>(
        &mut self,
        alloc: Global,
        machine: &mut M,
        time: &Time,
        mut run: Run,
    ) -> Option<Went>
        requires some { 0 < length self.old.left }
        requires run { IsRun run }
        requires waits { WaitsBelow (M.told machine.old).started run.place }
        ensures { MakesStep time.now (with_stage (running (from run) (wanted_at run.place)) (shown_attempt self.old))
            (M.told machine.old) result
            (M.told machine.new) (shown_attempt self.new) }
    {
        let ran = run.advance(alloc, machine, time.moment(), time.offset());
        let exit = run.exit();
        self.stage = stage_behind(&ran, exit, run);
        self.after_run(ran, exit)
    }

    /// What comes of an attempt whose script went on and came to this, with this exit code. It stands at the stage behind that.
    fn after_run(&mut self, ran: Ran, exit: Option<i64>) -> Option<Went>
        requires some { 0 < length self.old.left }
        requires stage { (run : Run) × (self.old.stage ≡ stage_behind ran exit run) }
        ensures steps { (at : When) (before : PlainStage) (run : Run) (machine : MachineView) (part : Part) (left : List Part)
            → self.old.left ≡ part ∷ left → self.old.stage ≡ stage_behind ran exit run → wanted_at run.place ≡ wanted_by ran
            → exit ≡ exit_at (from run) → StepsByRan at (with_stage before (shown_attempt self.old)) part left ran (from run)
            machine result (shown_attempt self.new) }
        ensures stage { self.new.stage ≡ self.old.stage }
        ensures leaves { Leaves (shown_attempt self.old) (4 * length self.old.left + 1) result (shown_attempt self.new) }
    {
        match ran {
            Ran::Held(line) => Some(Went::Held {
                component: self.component(),
                line,
            }),
            Ran::Wants(_, digest) => Some(Went::Wants { digest }),
            Ran::Done => None,
            Ran::Failed(line, cause) => self.fail(line, cause, exit),
            Ran::Memory => Some(Went::Memory),
        }
    }

    /// The success of the component at hand is judged.
    pub(crate) fn judge<M: Machine>(
        &mut self,
        alloc: Global,
        machine: &mut M,
        time: &Time,
        exit: Option<i64>,
    ) -> Option<Went>
        requires stage { self.old.stage ≡ Stage.Coming }
        requires some { 0 < length self.old.left }
        ensures { MakesStep time.now (with_stage (judging exit) (shown_attempt self.old))
            (M.told machine.old) result
            (M.told machine.new) (shown_attempt self.new) }
    {
        match self.succeeds(alloc, machine, time) {
            Found::Yes => {
                self.exit = exit;
                self.next()
            }
            Found::No => self.fail(0, Cause::NotMet, exit),
            Found::Failed => self.fail(0, Cause::MachineFault, exit),
            Found::Memory => {
                self.stage = Stage::Judging(exit);
                Some(Went::Memory)
            }
        }
    }

    /// Whether the success rule of the component at hand holds.
    fn succeeds<M: Machine>(&self, alloc: Global, machine: &mut M, time: &Time) -> Found
        ensures { (part : Part) (left : List Part) → self.now.left ≡ part ∷ left
            → Succeeds time.now part.fixlet part.fixlet.success (M.told machine.old) result (M.told machine.new) }
    {
        match self.left.front() {
            Some(part) => part.fixlet.succeeds(alloc, machine, time),
            None => Found::No,
        }
    }

    /// The position of the component at hand.
    pub(crate) fn component(&self) -> u32
        ensures { result ≡ first_component self.now.left }
    {
        match self.left.front() {
            Some(part) => part.component,
            None => 0,
        }
    }
}

/// The stage behind what a script came to, with its exit code.
fn stage_behind(ran: &Ran, exit: Option<i64>, run: Run) -> Stage
    ensures { result ≡ stage_behind ran.now exit run }
{
    let stage = match ran {
        Ran::Done => Stage::Judging(exit),
        Ran::Failed(_, _) => Stage::Coming,
        Ran::Held(_) | Ran::Wants(_, _) | Ran::Memory => return Stage::Running(run),
    };
    drop(run);
    stage
}
