ghost use Rattle.std.specs.Prelude.{◌≡◌, true, false};

use crate::{Held, RelKind};
use rel_lexer::Place;

/// One event of an evaluation, none, its end, or what kept it from making one.
#[derive(Drop)]
pub enum Step {
    /// No event, and one step less to the next one.
    Quiet,
    /// A look was made, at this place.
    Looked(Place),
    /// A turn.
    Turned(Place),
    /// A value.
    Given(Held),
    /// Nothing is left.
    Over,
    /// It ends in this error.
    Erred(RelKind, Place),
    /// The next event is a look at this place, and there is no room for one. No look was made.
    Full(Place),
    /// The look at this place failed. The next event is the same look.
    Failed(Place),
    /// Memory ran out. What would follow is not told.
    Memory,
}

/// A step of a form with several parts, and whether with it another part begins.
#[derive(Drop)]
pub struct Next {
    pub step: Step,
    pub begins: bool,
}

impl Next {
    /// The step, with which no part begins.
    pub(crate) fn going_on(step: Step) -> Next
        ensures { result ≡ record { step = step; begins = false } }
    {
        Next {
            step,
            begins: false,
        }
    }

    /// The step, with which another part begins.
    pub(crate) fn beginning(step: Step) -> Next
        ensures { result ≡ record { step = step; begins = true } }
    {
        Next { step, begins: true }
    }
}
