// Going on with a script.
ghost use Rattle.std.specs.Prelude.{◌≡◌, ◌≤◌, ℕ, List, Some};
ghost use Rattle.desk_base.specs.Moments.{IsMoment};
ghost use Rattle.line_forms.specs.Numbers.{IsOffset};
ghost use Rattle.rel_sources.specs.declared.pair.Pair.{Pair};
ghost use Rattle.script_text.specs.Scripts.{PlainScript};
ghost use Rattle.script_run.specs.Walks.{Settled};
ghost use Rattle.script_run.specs.RunPlaces.{MemoryLeaves, Stands, WaitsBelow, from, wanted_at};
ghost use Rattle.script_run.specs.Advances.{GoesOn, WantsAgain, wanted_by};
ghost use Rattle.script_run.specs.OneStep.{StepsFrom};

use crate::place::Place;
use crate::{Ran, Run};
use bf_machine::Machine;
use std::alloc::Global;
use std::mem;

impl Run {
    /// Goes on from the line that is held until it is held again, wants a file, is done or fails. The moment is in seconds since
    /// 1970-01-01 00:00:00 UTC, from 0 to 137,438,953,472 (2^37), and the offset in minutes east of UTC, from -840 to 840. The program
    /// that the run waits for is one that the machine started.
    pub fn advance<M: Machine>(
        &mut self,
        alloc: Global,
        machine: &mut M,
        moment: i64,
        offset: i64,
    ) -> Ran
        requires moment { IsMoment moment }
        requires offset { IsOffset offset }
        requires waits { WaitsBelow (M.told machine.old).started self.old.place }
        // A run that stood for settled results goes on from there and stands for these and those of this call.
        ensures goes_on { (script : PlainScript) (given : List Pair) (settled : List Settled) → Stands script given self.old settled
            → GoesOn (record { moment = moment; offset = offset }) script given settled
            (M.told machine.old) result (M.told machine.new) self.new }
        ensures waits { WaitsBelow (M.told machine.new).started self.new.place }
        ensures started { (M.told machine.old).started ≤ (M.told machine.new).started }
        // What is wanted is what was answered, until it is supplied, and memory runs out before a line of which nothing is done.
        ensures wanted { wanted_at self.new.place ≡ wanted_by result }
        ensures memory { MemoryLeaves result self.new.place }
        ensures again { (digest : List ℕ) → wanted_at self.old.place ≡ Some digest → WantsAgain digest
            (M.told machine.old) (from self.old) result (M.told machine.new) (from self.new) }
        ensures later { (M.told machine.old).faults ≤ (M.told machine.new).faults }
    {
        self.kept.set_time(moment, offset);
        self.rounds(alloc, machine)
    }

    fn rounds<M: Machine>(&mut self, alloc: Global, machine: &mut M) -> Ran
        requires { WaitsBelow (M.told machine.old).started self.old.place }
        ensures { StepsFrom self.old.place self.old (M.told machine.old) (Some result) (M.told machine.new) self.new }
    {
        'rounds: loop {
            match self.step(alloc, machine) {
                Some(ran) => return ran,
                None => {}
            }
        }
    }

    /// One step from where the run stands: an answer where it stops there.
    fn step<M: Machine>(&mut self, alloc: Global, machine: &mut M) -> Option<Ran>
        requires { WaitsBelow (M.told machine.old).started self.old.place }
        ensures { StepsFrom self.old.place self.old (M.told machine.old) result (M.told machine.new) self.new }
    {
        match mem::replace(&mut self.place, Place::Ready) {
            Place::Ready => self.begin(),
            Place::Wanting { fetch } => self.want(fetch),
            Place::Supplied { fetch, bytes } => self.compare(alloc, fetch, bytes),
            Place::Placing { line, name, bytes } => self.put(machine, line, name, bytes),
            Place::Doing { line, what } => self.do_line(alloc, machine, line, what),
            Place::Waiting { line, process } => self.wait(machine, line, process),
            Place::Testing { arms, other } => self.choose(arms, other),
            Place::Asking { arm, arms, other } => self.ask(alloc, machine, arm, arms, other),
            Place::Done => self.end(),
            Place::Failed {
                line,
                midway,
                cause,
            } => self.tell(line, midway, cause),
        }
    }
}
