// The steps of a run between its lines, and at its end.
ghost use Rattle.std.specs.Prelude.{◌≡◌, ◌+◌};
ghost use Rattle.bf_machine.specs.Views.{MachineView};
ghost use Rattle.script_run.specs.Asking.{when_of, known_in};
ghost use Rattle.script_run.specs.RunPlaces.{todos_walk};
ghost use Rattle.script_run.specs.Weights.{around_weight};
ghost use Rattle.script_run.specs.OneStep.{Steps, StepsFrom, MovesTo};

use crate::place::Place;
use crate::{Cause, Ran, Run};

impl Run {
    /// The next prefetch line or statement begins; behind the last of a list the list around it goes on.
    pub(crate) fn begin(&mut self) -> Option<Ran>
        requires ready { self.old.place ≡ Place.Ready }
        ensures { (machine : MachineView) → StepsFrom Place.Ready self.old machine result machine self.new }
    {
        match self.current.begin() {
            Some(place) => {
                self.place = place;
                None
            }
            None => self.go_out(),
        }
    }

    /// The list around the one at hand goes on.
    fn go_out(&mut self) -> Option<Ran>
        requires ready { self.old.place ≡ Place.Ready }
        ensures { (machine : MachineView) → Steps (when_of self.old.kept.scene) machine
            (todos_walk self.old.later.items (known_in self.old.kept.scene)) (1 + around_weight self.old) result machine self.new }
    {
        match self.later.pop_front() {
            Some(todo) => {
                self.current = todo;
                None
            }
            None => {
                self.place = Place::Done;
                None
            }
        }
    }

    /// All lines are done.
    pub(crate) fn end(&mut self) -> Option<Ran>
        requires ready { self.old.place ≡ Place.Ready }
        ensures { (machine : MachineView) → StepsFrom Place.Done self.old machine result machine self.new }
    {
        self.place = Place::Done;
        Some(Ran::Done)
    }

    /// The run stands at this place.
    pub(crate) fn stand(&mut self, place: Place)
        ensures { self.new ≡ record self.old { place = place } }
    {
        self.place = place;
    }

    /// The line has failed, midway or not.
    pub(crate) fn fail(&mut self, line: u32, midway: bool, cause: Cause) -> Option<Ran>
        ensures { MovesTo (Place.Failed line midway cause) self.old result self.new }
    {
        self.place = Place::Failed {
            line,
            midway,
            cause,
        };
        None
    }

    /// The line has failed, and that is answered.
    pub(crate) fn tell(&mut self, line: u32, midway: bool, cause: Cause) -> Option<Ran>
        requires ready { self.old.place ≡ Place.Ready }
        ensures { (machine : MachineView) → StepsFrom (Place.Failed line midway cause) self.old machine result machine self.new }
    {
        let told = cause.copy();
        self.place = Place::Failed {
            line,
            midway,
            cause,
        };
        match told {
            Ok(cause) => Some(Ran::Failed(line, cause)),
            Err(_) => Some(Ran::Memory),
        }
    }
}
