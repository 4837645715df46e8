ghost use Rattle.std.specs.Prelude.{◌≡◌, ℕ, Bool, List, Option};
ghost use Rattle.bf_world.specs.declared.key.Key.{Key};
ghost use Rattle.rel_inspect.specs.Left.{IsSoundWalk};
ghost use Rattle.rel_sources.specs.Steps as walks;
ghost use Rattle.rel_sources.specs.Traces as walk_traces;
ghost use Rattle.rel_trace.specs.Steps.{AsRoom, Falls, has_failed};
ghost use Rattle.rel_nodes.specs.Meaning.{placed};
ghost use Rattle.rel_nodes.specs.SoundWalks.{walk-prop};
ghost use Rattle.rel_nodes.specs.Steps.{Went, WentOn, of_walk};

use bf_machine::Machine;
use rel_inspect::{Scene, Walk, WalkEvent};
use rel_lexer::Place;
use rel_trace::{Held, RelKind, Step};

/// A walk that gives sound values.
#[derive(Drop)]
pub struct Walking {
    walk: Walk,
    ghost sound: { IsSoundWalk walk } by { walk-prop walk },
}

impl Walking {
    pub(crate) fn new(walk: Walk) -> Walking
        requires { IsSoundWalk walk }
        ensures { result.walk ≡ walk }
    {
        Walking { walk }
    }

    /// One event, with the head at this place.
    pub(crate) fn step<M: Machine>(
        &mut self,
        head: Place,
        scene: &Scene,
        machine: &mut M,
        room: bool,
    ) -> Step
        ensures { WentOn room (M.told machine.old) (of_walk scene.now head self.old.walk)
            result (M.told machine.new) (of_walk scene.now head self.new.walk) }
    {
        let event = self.walk.next_event(machine, scene, room);
        placed(event, head)
    }
}

/// The step of a walk's event, with the head at this place.
fn placed(event: WalkEvent, head: Place) -> Step
    requires { walks.GivesSound event }
    ensures goes { (l l' : Option (List Key)) (t t' : walk_traces.Trace) → walks.Goes l t event l' t'
        → Went l (placed head t) result l' (placed head t') }
    ensures failed { has_failed result ≡ walks.has_failed event }
    ensures room { (r : Bool) → walks.AsRoom r event → AsRoom r result }
    ensures falls { (q q' : ℕ) → walks.Falls event q q' → Falls result q q' }
{
    match event {
        WalkEvent::Looked => Step::Looked(head),
        WalkEvent::Turned => Step::Turned(head),
        WalkEvent::Given(value) => Step::Given(Held::new(value)),
        WalkEvent::Over => Step::Over,
        WalkEvent::TextTooLong => Step::Erred(RelKind::TextTooLong, head),
        WalkEvent::Full => Step::Full(head),
        WalkEvent::Failed => Step::Failed(head),
        WalkEvent::Memory => Step::Memory,
    }
}
