// The steps of a line: its command is done, and its program is waited for.
ghost use Rattle.std.specs.Prelude.{◌≡◌, ◌<◌, Ok, Err};
ghost use Rattle.bf_world.specs.Answers.{HasMoment};
ghost use Rattle.bf_machine.specs.Views.{MachineView};
ghost use Rattle.script_run.specs.Walks.{polling};
ghost use Rattle.script_run.specs.RunPlaces.{around};
ghost use Rattle.script_run.specs.Fills.{IsDated};
ghost use Rattle.script_run.specs.OneStep.{StepsFrom, CarriesOut, FollowsAct};

use crate::broken::Broken;
use crate::lines::{Prepared, prepare_line};
use crate::place::Place;
use crate::{Cause, Ran, Run};
use bf_machine::{Acted, Command, Machine, Polled, ProcessNo};
use rel_lexer::Text;
use script_text::Line;
use std::alloc::Global;

impl Run {
    /// A line is done, or stays as it was where it is held or memory ran out.
    pub(crate) fn do_line<M: Machine>(
        &mut self,
        alloc: Global,
        machine: &mut M,
        line: u32,
        what: Line,
    ) -> Option<Ran>
        requires ready { self.old.place ≡ Place.Ready }
        ensures { StepsFrom (Place.Doing line what) self.old (M.told machine.old) result (M.told machine.new) self.new }
    {
        match prepare_line(alloc, machine, &self.kept, &what) {
            Ok(prepared) => self.carry_out(alloc, machine, line, what, prepared),
            Err(broken) => self.break_off(line, what, broken),
        }
    }

    /// What is left to do of a line is done, after its expressions were asked.
    fn carry_out<M: Machine>(
        &mut self,
        alloc: Global,
        machine: &mut M,
        line: u32,
        what: Line,
        prepared: Prepared,
    ) -> Option<Ran>
        requires ready { self.old.place ≡ Place.Ready }
        requires date { IsDated (Ok prepared) }
        ensures { CarriesOut line what self.old (Ok prepared) (M.told machine.old) result (M.told machine.new) self.new }
    {
        match prepared {
            Prepared::Passes => {
                drop(what);
                None
            }
            Prepared::Held => {
                self.place = Place::Doing { line, what };
                Some(Ran::Held(line))
            }
            Prepared::Sets {
                midway,
                name,
                value,
            } => self.set(alloc, line, what, midway, name, value),
            Prepared::Undated { midway } => self.undated(line, what, midway),
            Prepared::Does { command } => self.act(machine, line, what, command),
            Prepared::Awaits { command } => self.start(machine, line, what, command),
        }
    }

    /// A line isn't gone through.
    fn break_off(&mut self, line: u32, what: Line, broken: Broken) -> Option<Ran>
        requires ready { self.old.place ≡ Place.Ready }
        ensures { (now : MachineView) → CarriesOut line what self.old (Err broken) now result now self.new }
    {
        match broken {
            Broken::Failed(cause) => {
                drop(what);
                self.fail(line, true, cause)
            }
            Broken::Memory => {
                self.place = Place::Doing { line, what };
                Some(Ran::Memory)
            }
        }
    }

    /// The date of a line is no time.
    fn undated(&mut self, line: u32, what: Line, midway: bool) -> Option<Ran>
        requires ready { self.old.place ≡ Place.Ready }
        ensures { (now : MachineView) → CarriesOut line what self.old (Ok (Prepared.Undated midway)) now result now self.new }
    {
        drop(what);
        self.fail(line, midway, Cause::BadDate)
    }

    /// A parameter is set, unless it was set before.
    fn set(
        &mut self,
        alloc: Global,
        line: u32,
        what: Line,
        midway: bool,
        name: Text,
        value: Text,
    ) -> Option<Ran>
        requires ready { self.old.place ≡ Place.Ready }
        ensures { (now : MachineView) → CarriesOut line what self.old (Ok (Prepared.Sets midway name value)) now result now self.new }
    {
        if self.kept.has(name.as_str()) {
            return self.fail(line, midway, Cause::ParameterTwice);
        }
        match self.kept.add(alloc, name, value) {
            Ok(()) => None,
            Err(_) => {
                self.place = Place::Doing { line, what };
                Some(Ran::Memory)
            }
        }
    }

    /// The command of a line is done.
    fn act<M: Machine>(
        &mut self,
        machine: &mut M,
        line: u32,
        what: Line,
        command: Command,
    ) -> Option<Ran>
        requires ready { self.old.place ≡ Place.Ready }
        requires date { HasMoment command }
        ensures { CarriesOut line what self.old (Ok (Prepared.Does command))
            (M.told machine.old) result (M.told machine.new) self.new }
    {
        match machine.act(&command, self.kept.moment()) {
            Acted::Memory => {
                self.place = Place::Doing { line, what };
                Some(Ran::Memory)
            }
            answer => self.acted(line, answer),
        }
    }

    /// What a command was answered.
    pub(crate) fn acted(&mut self, line: u32, answer: Acted) -> Option<Ran>
        requires ready { self.old.place ≡ Place.Ready }
        ensures { FollowsAct line 2 (λ process. around self.old) self.old answer result self.new }
    {
        match answer {
            Acted::Done | Acted::Started(_) => None,
            Acted::Refused(why) => self.fail(line, true, Cause::Refused(why)),
            // want of memory is told before this
            Acted::Failed | Acted::Memory => self.fail(line, true, Cause::MachineFault),
        }
    }

    /// The program of a line is started, and then waited for.
    fn start<M: Machine>(
        &mut self,
        machine: &mut M,
        line: u32,
        what: Line,
        command: Command,
    ) -> Option<Ran>
        requires ready { self.old.place ≡ Place.Ready }
        requires date { HasMoment command }
        ensures { CarriesOut line what self.old (Ok (Prepared.Awaits command))
            (M.told machine.old) result (M.told machine.new) self.new }
    {
        match machine.act(&command, self.kept.moment()) {
            Acted::Memory => {
                self.place = Place::Doing { line, what };
                Some(Ran::Memory)
            }
            answer => self.started(line, answer),
        }
    }

    /// What a command was answered whose program is waited for.
    fn started(&mut self, line: u32, answer: Acted) -> Option<Ran>
        requires ready { self.old.place ≡ Place.Ready }
        ensures { FollowsAct line 3 (λ process. polling line process (around self.old)) self.old answer result self.new }
    {
        match answer {
            Acted::Done => None,
            Acted::Started(process) => {
                self.place = Place::Waiting { line, process };
                None
            }
            Acted::Refused(reason) => self.fail(line, true, Cause::Refused(reason)),
            // want of memory is told before this
            Acted::Failed | Acted::Memory => self.fail(line, true, Cause::MachineFault),
        }
    }

    /// The program that the line waits for is polled.
    pub(crate) fn wait<M: Machine>(
        &mut self,
        machine: &mut M,
        line: u32,
        process: ProcessNo,
    ) -> Option<Ran>
        requires ready { self.old.place ≡ Place.Ready }
        requires started { process.0 < (M.told machine.old).started }
        ensures { StepsFrom (Place.Waiting line process) self.old (M.told machine.old) result (M.told machine.new) self.new }
    {
        match machine.poll(process) {
            Polled::Running => {
                self.place = Place::Waiting { line, process };
                Some(Ran::Held(line))
            }
            Polled::Exited(code) => {
                self.kept.set_exit(code);
                None
            }
            Polled::Failed => self.fail(line, true, Cause::MachineFault),
        }
    }
}
