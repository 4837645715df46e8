ghost use Rattle.std.specs.Prelude.{◌≡◌, ◌≢◌, ℕ, List, [], IfOk, Some};
ghost use Rattle.desk_base.specs.Counts.{CountsIf};
ghost use Rattle.bf_machine.specs.Views.{OnlyLooks};
ghost use Rattle.bf_world.specs.declared.key.Key.{Key};
ghost use Rattle.bf_world.specs.Worlds.{WorldState};
ghost use Rattle.rel_trace.specs.Steps as steps;
ghost use Rattle.rel_trace.specs.Trace.{Trace};
ghost use Rattle.rel_nodes.specs.Steps.{IsStop, has_room};
ghost use Rattle.rel_eval.specs.Cursors.{AsState, GivesSound, has_failed, Nearer, after_pull, cursor_rest, weight};
ghost use Rattle.rel_eval.specs.Cuts.{cut, limit};
ghost use Rattle.rel_eval.specs.Pulls.{AreAlike, Draws};
ghost use Rattle.rel_eval.specs.Stops.{IsNotClosed, Meets};

use bf_machine::Machine;
use rel_inspect::Scene;
use rel_lexer::Place;
use rel_nodes::Node;
use rel_trace::{RelKind, Scope, Step};
use rel_value::Value;
use std::alloc::{AllocError, Global};

/// The most looks and turns of one evaluation.
const LIMIT: u64 = 1_000_000;

/// Nothing is handed down to a question.
const ALONE: Scope<'static> = Scope {
    it: None,
    argument: None,
    left: None,
};

/// What a pull answers.
#[derive(Drop)]
pub enum Pulled {
    /// The next value.
    Value(Value),
    /// There are no more values. It is answered again from then on.
    End,
    /// There are no more values because of this error. It is answered again from then on.
    Error(RelKind, Place),
    /// The look at this place failed. The next pull makes it again.
    Failed(Place),
    /// Memory ran out.
    Memory,
    /// Memory ran out in an earlier pull.
    Closed,
}

impl Pulled {
    /// The same answer once more. The error is want of memory.
    pub fn copy(&self) -> Result<Pulled, AllocError>
        ensures { IfOk result (λ copy. AreAlike self.now copy) }
    {
        Ok(match self {
            Pulled::Value(value) => Pulled::Value(value.copy()?),
            Pulled::End => Pulled::End,
            Pulled::Error(kind, place) => Pulled::Error(*kind, *place),
            Pulled::Failed(place) => Pulled::Failed(*place),
            Pulled::Memory => Pulled::Memory,
            Pulled::Closed => Pulled::Closed,
        })
    }
}

/// Whether a cursor can go on.
#[derive(Clone, Copy)]
pub enum State {
    Open,
    /// It was drawn to its end.
    Over,
    /// It was drawn to this error.
    Erred(RelKind, Place),
    /// Memory ran out.
    Shut,
}

/// Draws a question's values one at a time. Contracts see what it has still to give.
#[derive(Drop)]
pub struct Cursor {
    node: Node,
    scene: Scene,
    /// How many looks and turns it may still make.
    budget: u64,
    state: State,
    alloc: Global,
}

impl Cursor {
    /// A cursor over a node that is at its beginning.
    pub(crate) fn new(alloc: Global, node: Node, scene: Scene) -> Cursor
        ensures node { result.node ≡ node }
        ensures scene { result.scene ≡ scene }
        ensures budget { result.budget ≡ limit }
        ensures state { result.state ≡ State.Open }
    {
        Cursor {
            node,
            scene,
            budget: LIMIT,
            state: State::Open,
            alloc,
        }
    }

    /// Draws the next value.
    pub fn pull<M: Machine>(&mut self, machine: &mut M) -> Pulled
        ensures goes { (w : WorldState) → (M.told machine.old).world ≡ Some w
            → Draws (M.told machine.old).looked (cursor_rest w self.old) result
            (M.told machine.new).looked (cursor_rest w self.new) }
        ensures state { self.new.state ≡ after_pull result }
        ensures again { AsState self.old.state result }
        ensures still { self.old.state ≢ State.Open → machine.new ≡ machine.old }
        ensures sound { GivesSound result }
        ensures nearer { Nearer result (weight self.old) (weight self.new) }
        ensures cause { CountsIf (has_failed result) (M.told machine.old).faults (M.told machine.new).faults }
        ensures looks { OnlyLooks (M.told machine.old) (M.told machine.new) }
    {
        match self.state {
            State::Open => {}
            State::Over => return Pulled::End,
            State::Erred(kind, place) => return Pulled::Error(kind, place),
            State::Shut => return Pulled::Closed,
        }
        let budget = &mut self.budget;
        let step = self
            .node
            .step(self.alloc, &ALONE, &self.scene, machine, budget);
        let pulled = into_pulled(step, self.budget);
        self.state = pulled.state();
        pulled
    }
}

/// What the step at which a node stopped is to a pull, with so many looks and turns left: a turn or a look more is one too many.
fn into_pulled(step: Step, budget: u64) -> Pulled
    requires stop { IsStop budget step }
    requires room { steps.AsRoom (has_room budget) step }
    ensures meets { (t u : Trace) (looks : List Key) → steps.Goes [] t step looks u
        → (looks ≡ []) × Meets (cut budget t) result (cut budget u) }
    ensures not_closed { IsNotClosed result }
    ensures sound { GivesSound result }
    ensures nearer { (q r : ℕ) → steps.Falls step q r → Nearer result q r }
    ensures failed { has_failed result ≡ steps.has_failed step }
{
    match step {
        Step::Given(value) => Pulled::Value(value.into_value()),
        Step::Over => Pulled::End,
        Step::Erred(kind, place) => Pulled::Error(kind, place),
        Step::Turned(place) => Pulled::Error(RelKind::Steps, place),
        Step::Full(place) => Pulled::Error(RelKind::Steps, place),
        Step::Failed(place) => Pulled::Failed(place),
        Step::Memory => Pulled::Memory,
        Step::Quiet | Step::Looked(_) => unreachable!(),
    }
}

impl Pulled {
    /// The state that it leaves.
    fn state(&self) -> State
        ensures { result ≡ after_pull self.now }
    {
        match self {
            Pulled::Value(_) => State::Open,
            Pulled::End => State::Over,
            Pulled::Error(kind, place) => State::Erred(*kind, *place),
            Pulled::Failed(_) => State::Open,
            Pulled::Memory => State::Shut,
            Pulled::Closed => State::Shut,
        }
    }
}
