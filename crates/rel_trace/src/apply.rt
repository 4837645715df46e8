ghost use Rattle.std.specs.Prelude.{◌≡◌, ℕ, ℤ, List, Bool, Option, Some, IfSome};
ghost use Rattle.bf_world.specs.declared.key.Key.{Key};
ghost use Rattle.line_forms.specs.Numbers.{IsOffset};
ghost use Rattle.rel_value.specs.Plain.{Plain};
ghost use Rattle.rel_trace.specs.Trace.{Trace, each, none, one};
ghost use Rattle.rel_trace.specs.Steps.{AsRoom, Falls, Goes, has_failed, IsTold};
ghost use Rattle.rel_trace.specs.Ones.{applied, apply_place, made};
ghost use Rattle.rel_trace.specs.Scalars.{plain, scalar_made};
ghost use Rattle.rel_trace.specs.Scopes.{lent};
ghost use Rattle.rel_trace.specs.Works.{Works};

use crate::operation::{cast_of, inverse, operate_left, opposite};
use crate::worked::Worked;
use crate::{Held, Joining, Scalar, Step};
use rel_lexer::{BinarySign, Place};
use rel_value::Cast;
use std::alloc::Global;

/// A form that makes a value of each value of its part, and of the one to the left in scope, without a state.
#[derive(Clone, Copy)]
pub enum Apply {
    /// `-` at this place.
    Negate { place: Place },
    /// `not` at this place.
    Not { place: Place },
    /// A cast, whose words are at this place.
    Cast { to: Cast, place: Place },
    /// A sign between the left value and the part's, at this place.
    Sign { sign: BinarySign, place: Place },
    /// The left value and the part's as a tuple. The place is the span of the left one's part.
    Tuple { joining: Joining, span: Place },
}

impl Apply {
    /// All that it makes of a value and of the left one. Times are written as a clock shows them that is `offset` minutes east of
    /// UTC, -840 to 840.
    pub fn tell(self, alloc: Global, left: Option<&Held>, value: &Held, offset: i64) -> Step
        requires { IsOffset offset }
        ensures goes { (l : List Key) → Goes l (applied self offset (lent left.entry) value.now) result l none }
        ensures told { IsTold result }
    {
        self.of(alloc, left, value, offset).told(self.place())
    }

    /// The scalar that a sign, `-` or `not` makes of a scalar and of the one to its left, where it makes one. A cast and a tuple make
    /// none here.
    pub fn tell_scalar(self, left: Option<Scalar>, value: Scalar) -> Option<Scalar>
        ensures made { result ≡ scalar_made self left value }
        ensures told { (offset : ℤ) (x : Option Plain) → IfSome left (λ scalar. x ≡ Some (plain scalar))
            → IfSome result (λ scalar. applied self offset x (plain value) ≡ one (plain scalar)) }
    {
        match self {
            Apply::Negate { .. } => value.opposite(),
            Apply::Not { .. } => value.inverse(),
            Apply::Sign { sign, .. } => left?.operate(sign, value),
            Apply::Cast { .. } | Apply::Tuple { .. } => None,
        }
    }

    /// After a step of the part. Times are written as a clock shows them that is `offset` minutes east of UTC.
    pub(crate) fn after(self, alloc: Global, step: Step, left: Option<&Held>, offset: i64) -> Step
        requires { IsOffset offset }
        ensures goes { (l l' : List Key) (t t' : Trace) → Goes l t step l' t'
            → Goes l (each t (applied self offset (lent left.entry)))
            result l' (each t' (applied self offset (lent left.entry))) }
        ensures failed { has_failed result ≡ has_failed step }
        ensures room { (r : Bool) → AsRoom r step → AsRoom r result }
        ensures falls { (q q' : ℕ) → Falls step q q' → Falls result q q' }
    {
        match step {
            Step::Given(value) => self.of(alloc, left, &value, offset).at(self.place()),
            other => other,
        }
    }

    /// What it makes of a value.
    fn of(self, alloc: Global, left: Option<&Held>, value: &Held, offset: i64) -> Worked
        requires { IsOffset offset }
        ensures { Works (made self offset (lent left.entry) value.now) result }
    {
        match self {
            Apply::Negate { .. } => opposite(value),
            Apply::Not { .. } => inverse(value),
            Apply::Cast { to, .. } => cast_of(alloc, to, value, offset),
            Apply::Sign { sign, .. } => operate_left(alloc, sign, left, value),
            Apply::Tuple { joining, .. } => joining.tie_left(alloc, left, value),
        }
    }

    fn place(self) -> Place
        ensures { result ≡ apply_place self }
    {
        match self {
            Apply::Negate { place } => place,
            Apply::Not { place } => place,
            Apply::Cast { place, .. } => place,
            Apply::Sign { place, .. } => place,
            Apply::Tuple { span, .. } => span,
        }
    }
}
