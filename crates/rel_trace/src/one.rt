ghost use Rattle.std.specs.Prelude.{◌≡◌, ℕ, ℤ, List, Bool, true, false};
ghost use Rattle.bf_world.specs.declared.key.Key.{Key};
ghost use Rattle.line_forms.specs.Numbers.{IsOffset};
ghost use Rattle.rel_trace.specs.Trace.{Trace, none};
ghost use Rattle.rel_trace.specs.Steps.{Goes, has_failed, AsRoom, Falls};
ghost use Rattle.rel_trace.specs.Ones.{cast_kind, ends_with_part, exists_kind, fold_kind, is_done, negate_kind, not_kind, one_kind, one_left, one_quiet, one_whole, sign_kind, single_kind, tuple_kind};
ghost use Rattle.rel_trace.specs.Scopes.{Around, seen};

use crate::{Apply, Draw, Fold, Folding, Joining, Scope, Step};
use rel_lexer::{BinarySign, Place};
use rel_value::Cast;
use std::alloc::Global;

/// The state of a form with one part.
#[derive(Drop)]
pub enum One {
    Draw(Draw),
    Fold(Folding),
    Apply(Apply),
}

impl One {
    /// The one value of the part. None and a second one are errors at the head's place.
    pub fn single(place: Place) -> One
        ensures kind { one_kind result ≡ single_kind place }
        ensures rest { (s : Around) (offset : ℤ) (t : Trace)
            → one_left result s offset t ≡ one_whole (single_kind place) s offset t }
    {
        One::Draw(Draw::Single {
            place,
            held: None,
            done: false,
        })
    }

    /// `exists`
    pub fn exists() -> One
        ensures kind { one_kind result ≡ exists_kind }
        ensures rest { (s : Around) (offset : ℤ) (t : Trace) → one_left result s offset t ≡ one_whole (exists_kind) s offset t }
    {
        One::Draw(Draw::Exists { done: false })
    }

    /// An aggregate with its head at this place.
    pub fn fold(fold: Fold, place: Place) -> One
        ensures kind { one_kind result ≡ fold_kind fold place }
        ensures rest { (s : Around) (offset : ℤ) (t : Trace)
            → one_left result s offset t ≡ one_whole (fold_kind fold place) s offset t }
    {
        One::Fold(Folding::new(fold, place))
    }

    /// `-` before the part, at this place.
    pub fn negate(place: Place) -> One
        ensures kind { one_kind result ≡ negate_kind place }
        ensures rest { (s : Around) (offset : ℤ) (t : Trace)
            → one_left result s offset t ≡ one_whole (negate_kind place) s offset t }
    {
        One::Apply(Apply::Negate { place })
    }

    /// `not` before the part, at this place.
    pub fn not(place: Place) -> One
        ensures kind { one_kind result ≡ not_kind place }
        ensures rest { (s : Around) (offset : ℤ) (t : Trace)
            → one_left result s offset t ≡ one_whole (not_kind place) s offset t }
    {
        One::Apply(Apply::Not { place })
    }

    /// A cast of the part, whose words are at this place.
    pub fn cast(to: Cast, place: Place) -> One
        ensures kind { one_kind result ≡ cast_kind to place }
        ensures rest { (s : Around) (offset : ℤ) (t : Trace)
            → one_left result s offset t ≡ one_whole (cast_kind to place) s offset t }
    {
        One::Apply(Apply::Cast { to, place })
    }

    /// A sign between the left value in scope and the part's, at this place.
    pub fn sign(sign: BinarySign, place: Place) -> One
        ensures kind { one_kind result ≡ sign_kind sign place }
        ensures rest { (s : Around) (offset : ℤ) (t : Trace)
            → one_left result s offset t ≡ one_whole (sign_kind sign place) s offset t }
    {
        One::Apply(Apply::Sign { sign, place })
    }

    /// The left value in scope and the part's as a tuple. The place is the span of the left one's part.
    pub fn tuple(joining: Joining, span: Place) -> One
        ensures kind { one_kind result ≡ tuple_kind joining span }
        ensures rest { (s : Around) (offset : ℤ) (t : Trace)
            → one_left result s offset t ≡ one_whole (tuple_kind joining span) s offset t }
    {
        One::Apply(Apply::Tuple { joining, span })
    }

    /// Whether it has given all that it gives. Its part is not stepped any more.
    pub fn is_done(&self) -> bool
        ensures { result ≡ is_done self.now }
    {
        match self {
            One::Draw(draw) => draw.is_done(),
            One::Fold(folding) => folding.done,
            One::Apply(_) => false,
        }
    }

    /// Whether nothing is left where its part has nothing left: it has nothing to sum up.
    pub fn ends_with_part(&self) -> bool
        ensures exact { result ≡ ends_with_part self.now }
        ensures none { result ≡ true → (s : Around) (offset : ℤ) → one_left self.now s offset none ≡ none }
    {
        match self {
            One::Apply(_) => true,
            One::Draw(_) | One::Fold(_) => false,
        }
    }

    /// Begins anew. Its part does so too.
    pub fn reset(&mut self)
        ensures kind { one_kind self.new ≡ one_kind self.old }
        ensures rest { (s : Around) (offset : ℤ) (t : Trace)
            → one_left self.new s offset t ≡ one_whole (one_kind self.old) s offset t }
    {
        match self {
            One::Draw(draw) => draw.reset(),
            One::Fold(folding) => folding.reset(),
            One::Apply(_) => {}
        }
    }

    /// The step that follows from a step of its part. Times are written as a clock shows them that is `offset` minutes east of UTC.
    pub fn after(&mut self, alloc: Global, step: Step, scope: Scope<'_>, offset: i64) -> Step
        requires waits { is_done self.old ≡ false }
        requires offset_in { IsOffset offset }
        ensures kind { one_kind self.new ≡ one_kind self.old }
        ensures goes { (l l' : List Key) (t t' : Trace) → Goes l t step l' t'
            → Goes l (one_left self.old (seen scope.entry) offset t) result l' (one_left self.new (seen scope.entry) offset t') }
        ensures failed { has_failed result ≡ has_failed step }
        ensures room { (r : Bool) → AsRoom r step → AsRoom r result }
        ensures falls { (q q' : ℕ) → Falls step q q' → Falls result (one_quiet self.old q) (one_quiet self.new q') }
    {
        match self {
            One::Draw(draw) => draw.after(step),
            One::Fold(folding) => folding.after(alloc, step, scope.argument),
            One::Apply(apply) => apply.after(alloc, step, scope.left, offset),
        }
    }
}
