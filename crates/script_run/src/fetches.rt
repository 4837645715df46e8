// The steps of a prefetch line: its file is wanted, compared and placed.
ghost use Rattle.std.specs.Prelude.{◌≡◌, ℕ, List, true};
ghost use Rattle.bf_machine.specs.Views.{MachineView};
ghost use Rattle.script_run.specs.OneStep.{StepsFrom, MovesTo};

use crate::compare::mismatch;
use crate::place::Place;
use crate::{Cause, Ran, Run};
use bf_machine::{Acted, Command, Machine};
use desk_base::Bytes;
use rel_lexer::Text;
use script_text::Prefetch;
use std::alloc::Global;

impl Run {
    /// A file is wanted.
    pub(crate) fn want(&mut self, fetch: Prefetch) -> Option<Ran>
        requires ready { self.old.place ≡ Place.Ready }
        ensures { (machine : MachineView) → StepsFrom (Place.Wanting fetch) self.old machine result machine self.new }
    {
        let ran = Ran::Wants(fetch.line, fetch.sha256);
        self.place = Place::Wanting { fetch };
        Some(ran)
    }

    /// The bytes that came for a file are compared with what its line states.
    pub(crate) fn compare(&mut self, alloc: Global, fetch: Prefetch, bytes: Bytes) -> Option<Ran>
        requires ready { self.old.place ≡ Place.Ready }
        ensures { (machine : MachineView) → StepsFrom (Place.Supplied fetch bytes) self.old machine result machine self.new }
    {
        match mismatch(alloc, &fetch, bytes.as_slice()) {
            Ok(None) => self.matches(fetch, bytes),
            Ok(Some(cause)) => self.differs(fetch, bytes, cause),
            Err(_) => {
                self.stand(Place::Supplied { fetch, bytes });
                Some(Ran::Memory)
            }
        }
    }

    /// The bytes are those of the file.
    fn matches(&mut self, fetch: Prefetch, bytes: Bytes) -> Option<Ran>
        ensures { MovesTo (Place.Placing fetch.line fetch.name bytes) self.old result self.new }
    {
        self.stand(Place::Placing {
            line: fetch.line,
            name: fetch.name,
            bytes,
        });
        None
    }

    /// They aren't, for this cause.
    fn differs(&mut self, fetch: Prefetch, _bytes: Bytes, cause: Cause) -> Option<Ran>
        ensures { MovesTo (Place.Failed fetch.line true cause) self.old result self.new }
    {
        self.fail(fetch.line, true, cause)
    }

    /// The file of a prefetch line is placed.
    pub(crate) fn put<M: Machine>(
        &mut self,
        machine: &mut M,
        line: u32,
        name: Text,
        bytes: Bytes,
    ) -> Option<Ran>
        requires ready { self.old.place ≡ Place.Ready }
        ensures { StepsFrom (Place.Placing line name bytes) self.old (M.told machine.old) result (M.told machine.new) self.new }
    {
        let command = Command::Place(name, bytes);
        match machine.act(&command, self.kept.moment()) {
            Acted::Memory => {
                self.place = before(line, command);
                Some(Ran::Memory)
            }
            came => self.acted(line, came),
        }
    }
}

/// The place before the command by which a file is placed.
fn before(line: u32, command: Command) -> Place
    ensures { (name bytes : List ℕ) → command ≡ Command.Place name bytes → result ≡ Place.Placing line name bytes }
{
    match command {
        Command::Place(name, bytes) => Place::Placing { line, name, bytes },
        _ => Place::Done,
    }
}
