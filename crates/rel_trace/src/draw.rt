ghost use Rattle.std.specs.Prelude.{◌≡◌, ℕ, ◌+◌, ℤ, List, Bool, false};
ghost use Rattle.bf_world.specs.declared.key.Key.{Key};
ghost use Rattle.rel_trace.specs.Trace.{Trace};
ghost use Rattle.rel_trace.specs.Steps.{Goes, has_failed, AsRoom, Falls};
ghost use Rattle.rel_trace.specs.Ones.{draw_done, draw_kind, draw_left, one_whole, zero_if};
ghost use Rattle.rel_trace.specs.Scopes.{Around};

use crate::{Held, RelKind, Step};
use rel_lexer::Place;

/// A form that draws one value or none from its part.
#[derive(Drop)]
pub enum Draw {
    /// The one value of the part. None and a second one are errors at this place.
    Single {
        place: Place,
        held: Option<Held>,
        done: bool,
    },
    /// `exists`
    Exists {
        done: bool,
    },
}

impl Draw {
    pub(crate) fn is_done(&self) -> bool
        ensures { result ≡ draw_done self.now }
    {
        match self {
            Draw::Single { done, .. } => *done,
            Draw::Exists { done } => *done,
        }
    }

    pub(crate) fn reset(&mut self)
        ensures kind { draw_kind self.new ≡ draw_kind self.old }
        ensures rest { (s : Around) (offset : ℤ) (t : Trace) → draw_left self.new t ≡ one_whole (draw_kind self.old) s offset t }
    {
        match self {
            Draw::Single { held, done, .. } => {
                drop(held.take());
                *done = false;
            }
            Draw::Exists { done } => {
                *done = false;
            }
        }
    }

    /// After a step of the part.
    pub(crate) fn after(&mut self, step: Step) -> Step
        requires { draw_done self.old ≡ false }
        ensures kind { draw_kind self.new ≡ draw_kind self.old }
        ensures goes { (l l' : List Key) (t t' : Trace) → Goes l t step l' t'
            → Goes l (draw_left self.old t) result l' (draw_left self.new t') }
        ensures failed { has_failed result ≡ has_failed step }
        ensures room { (r : Bool) → AsRoom r step → AsRoom r result }
        ensures falls { (q q' : ℕ) → Falls step q q'
            → Falls result (zero_if (draw_done self.old) (q + 1)) (zero_if (draw_done self.new) (q' + 1)) }
    {
        match self {
            Draw::Single { place, held, done } => match step {
                Step::Given(value) => match held {
                    None => {
                        *held = Some(value);
                        Step::Quiet
                    }
                    Some(_) => Step::Erred(RelKind::NonUnique, *place),
                },
                Step::Over => match held.take() {
                    None => Step::Erred(RelKind::Nonexistent, *place),
                    Some(value) => {
                        *done = true;
                        Step::Given(value)
                    }
                },
                other => other,
            },
            Draw::Exists { done } => match step {
                Step::Given(_) => {
                    *done = true;
                    Step::Given(Held::boolean(true))
                }
                Step::Over => {
                    *done = true;
                    Step::Given(Held::boolean(false))
                }
                Step::Erred(kind, place) => {
                    if kind.is_nonexistent() {
                        *done = true;
                        Step::Given(Held::boolean(false))
                    } else {
                        Step::Erred(kind, place)
                    }
                }
                other => other,
            },
        }
    }
}
