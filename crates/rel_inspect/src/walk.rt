ghost use Rattle.std.specs.Prelude.{◌≡◌, Some, None};
ghost use Rattle.std.specs.Option.{option_copied};
ghost use Rattle.bf_world.specs.declared.key.Key.{Key};
ghost use Rattle.rel_sources.specs.declared.scene.Scene.{Scene};
ghost use Rattle.desk_base.specs.Counts.{CountsIf};
ghost use Rattle.bf_machine.specs.Views.{OnlyLooks};
ghost use Rattle.bf_world.specs.Answers.{IsGoodAnswer};
ghost use Rattle.bf_world.specs.Shown.{shown};
ghost use Rattle.bf_world.specs.Worlds.{WorldState};
ghost use Rattle.rel_sources.specs.declared.event.WalkEvent.TheVariants as event;
ghost use Rattle.rel_sources.specs.Traces.{After, Look};
ghost use Rattle.rel_sources.specs.Steps.{Moves, Goes, Steps, has_failed, step_has_failed, AsRoom, Falls, GivesSound, StepGivesSound};
ghost use Rattle.rel_inspect.specs.Left.{state_left, left, state_values, values_ahead, asked, IsSoundState, IsSoundWalk};

use crate::descent::Descent;
use crate::facet::Facet;
use crate::listing::Listing;
use crate::once::Once;
use crate::turns::Turns;
use bf_machine::{Looked, Machine};
use bf_world::{Answer, Key};
use rel_sources::{HeldItem, Scene, WalkEvent, WalkStep};
use std::alloc::Global;
use std::mem;

/// What one property gives over one object, and the place that it has come to.
#[derive(Drop)]
pub struct Walk {
    alloc: Global,
    state: State,
}

#[derive(Drop)]
pub(crate) enum State {
    /// A look, and what is asked of the one thing that it shows.
    LooksAt { key: Key, facet: Facet },
    /// A look, and which of the things that it shows are asked for.
    Lists { key: Key, listing: Listing },
    /// One value or none.
    Once(Once),
    /// A turn before each value.
    Turns(Turns),
    /// The files below a folder.
    Descends(Descent),
}

impl Walk {
    pub(crate) fn new(alloc: Global, state: State) -> Walk
        ensures { result.state ≡ state }
    {
        Walk { alloc, state }
    }

    /// One event. A look is made only where there is room for one, and then nothing else is done that could fail.
    pub fn next_event<M: Machine>(
        &mut self,
        machine: &mut M,
        scene: &Scene,
        room: bool,
    ) -> WalkEvent
        requires walk { IsSoundWalk self.old }
        ensures goes { (w : WorldState) → (M.told machine.old).world ≡ Some w
            → Goes (M.told machine.old).looked (left self.old w scene.now) result (M.told machine.new).looked (left self.new w scene.now) }
        ensures cause { CountsIf (has_failed result) (M.told machine.old).faults (M.told machine.new).faults }
        ensures room { AsRoom room result }
        ensures falls { Falls result (values_ahead self.old) (values_ahead self.new) }
        ensures looks { OnlyLooks (M.told machine.old) (M.told machine.new) }
        ensures walk { IsSoundWalk self.new }
        ensures sound { GivesSound result }
        ensures asked { result ≡ event.Looked → asked self.new.state ≡ None }
    {
        let Some(key) = self.state.key() else {
            return self.state.go(self.alloc, scene);
        };
        if !room {
            return WalkEvent::Full;
        }
        match machine.look(key) {
            Looked::Answer(answer) => {
                self.take(answer);
                WalkEvent::Looked
            }
            Looked::Failed => WalkEvent::Failed,
            Looked::Memory => WalkEvent::Memory,
        }
    }

    /// The next event that is no look. A look that comes before it is made.
    pub fn step<M: Machine>(&mut self, machine: &mut M, scene: &Scene) -> WalkStep
        requires walk { IsSoundWalk self.old }
        ensures goes { (w : WorldState) → (M.told machine.old).world ≡ Some w
            → Steps (M.told machine.old).looked (left self.old w scene.now) result (M.told machine.new).looked (left self.new w scene.now) }
        ensures cause { CountsIf (step_has_failed result) (M.told machine.old).faults (M.told machine.new).faults }
        ensures looks { OnlyLooks (M.told machine.old) (M.told machine.new) }
        ensures walk { IsSoundWalk self.new }
        ensures sound { StepGivesSound result }
    {
        match self.next_event(machine, scene, true) {
            WalkEvent::Looked => self.state.go(self.alloc, scene).into_step(),
            event => event.into_step(),
        }
    }

    /// Takes the answer of the look.
    fn take(&mut self, answer: Answer)
        requires good { IsGoodAnswer answer }
        requires sound { IsSoundState self.old.state }
        ensures left { (w : WorldState) (s : Scene) (k : Key) → asked self.old.state ≡ Some k → answer ≡ shown w k
            → state_left self.old.state w s ≡ After (Look k) (state_left self.new.state w s) }
        ensures asks { asked self.new.state ≡ None }
        ensures sound { IsSoundState self.new.state }
    {
        let state = mem::replace(&mut self.state, State::Once(Once::Held(HeldItem::Nothing)));
        self.state = state.taken(self.alloc, answer);
    }
}

impl State {
    /// The key of the look that is the next event, where a look is.
    fn key(&self) -> Option<&Key>
        ensures { option_copied result ≡ asked self.now }
    {
        match self {
            State::LooksAt { key, .. } => Some(key),
            State::Lists { key, .. } => Some(key),
            State::Once(_) => None,
            State::Turns(_) => None,
            State::Descends(descent) => descent.key(),
        }
    }

    /// What is left with the answer of the look. It takes no memory.
    fn taken(self, alloc: Global, answer: Answer) -> State
        requires good { IsGoodAnswer answer }
        requires sound { IsSoundState self }
        ensures left { (w : WorldState) (s : Scene) (k : Key) → asked self ≡ Some k → answer ≡ shown w k
            → state_left self w s ≡ After (Look k) (state_left result w s) }
        ensures asks { asked result ≡ None }
        ensures sound { IsSoundState result }
    {
        match self {
            State::LooksAt { key: _key, facet } => State::Once(facet.of(answer)),
            State::Lists { key: _key, listing } => State::Turns(Turns::new(listing.of(answer))),
            State::Descends(descent) => State::Descends(descent.taken(alloc, answer)),
            State::Once(once) => State::Once(once),
            State::Turns(turns) => State::Turns(turns),
        }
    }

    /// An event that is no look.
    #[inline(always)]
    fn go(&mut self, alloc: Global, scene: &Scene) -> WalkEvent
        requires asks { asked self.old ≡ None }
        requires sound { IsSoundState self.old }
        ensures moves { (w : WorldState) → Moves (state_left self.old w scene.now) result (state_left self.new w scene.now) }
        ensures falls { Falls result (state_values self.old) (state_values self.new) }
        ensures sound { IsSoundState self.new }
        ensures gives_sound { GivesSound result }
    {
        match self {
            State::LooksAt { .. } => WalkEvent::Over,
            State::Lists { .. } => WalkEvent::Over,
            State::Once(once) => once.step(alloc, scene),
            State::Turns(turns) => turns.step(alloc),
            State::Descends(descent) => descent.step(alloc),
        }
    }
}
