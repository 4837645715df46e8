ghost use Rattle.std.specs.Prelude.{◌≡◌, IfSome, List, Some};
ghost use Rattle.bf_world.specs.declared.key.Key.{Key};
ghost use Rattle.bf_world.specs.Worlds.{WorldState};
ghost use Rattle.rel_sources.specs.declared.scene.Scene.{Scene};
ghost use Rattle.rel_trace.specs.Ones.{apply_kind, single_kind, unless, zero_if};
ghost use Rattle.rel_trace.specs.Scalars.{plain};
ghost use Rattle.rel_trace.specs.Scopes.{Around, lent, seen};
ghost use Rattle.rel_trace.specs.Steps.{Falls, Goes, IsTold};
ghost use Rattle.rel_trace.specs.Trace.{none, one};
ghost use Rattle.rel_trace.specs.Twos.{left_kind};
ghost use Rattle.rel_nodes.specs.Core.{core, one_core, two_core};
ghost use Rattle.rel_nodes.specs.Meaning.{given};
ghost use Rattle.rel_nodes.specs.Nodes.{pure_shape};

use rel_inspect::Scene;
use rel_lexer::Place;
use rel_trace::{Apply, Held, RelKind, Scalar, Scope, Step};
use std::alloc::Global;

/// A part of a question that neither looks nor turns, and gives one value at most. It is told at once, and keeps no state.
#[derive(Drop)]
pub enum Pure {
    Constant(Held),
    /// What `it` stands for.
    It,
    /// The value to the left.
    Left,
    /// What a sign or a cast makes of a part.
    Applied { part: Box<Pure>, apply: Apply },
    /// The one value of a part, with its head at this place.
    Single { part: Box<Pure>, place: Place },
    /// The second part with the value of the first to its left.
    Joined { first: Box<Pure>, second: Box<Pure> },
}

impl Pure {
    /// All that it gives, and nothing more from then on.
    #[inline(never)]
    pub(crate) fn tell_once(
        &self,
        is_given: &mut bool,
        alloc: Global,
        scope: &Scope<'_>,
        scene: &Scene,
    ) -> Step
        ensures goes { (w : WorldState) (l : List Key)
            → Goes l (unless is_given.old (core w scene.now (pure_shape self.now) (seen scope.now)))
            result l (unless is_given.new (core w scene.now (pure_shape self.now) (seen scope.now))) }
        ensures told { IsTold result }
        ensures falls { Falls result (zero_if is_given.old 1) (zero_if is_given.new 1) }
    {
        if *is_given {
            return Step::Over;
        }
        *is_given = true;
        match self.scalar(scalar_in(scope.it), scalar_in(scope.left)) {
            Some(scalar) => Step::Given(scalar.held()),
            None => self.tell(alloc, scope, scene),
        }
    }

    /// Its one value, where that and all that it is made of are scalars. What `it` stands for and the value to the left are handed
    /// down where they are scalars.
    fn scalar(&self, it: Option<Scalar>, left: Option<Scalar>) -> Option<Scalar>
        ensures { (w : WorldState) (s : Scene) (a : Around) → IfSome it (λ x. a.it ≡ Some (plain x))
            → IfSome left (λ x. a.left ≡ Some (plain x)) → IfSome result (λ x. core w s (pure_shape self.now) a ≡ one (plain x)) }
    {
        match self {
            Pure::Constant(value) => Scalar::of(value),
            Pure::It => it,
            Pure::Left => left,
            Pure::Applied { part, apply } => {
                let value = part.scalar(it, left)?;
                apply.tell_scalar(left, value)
            }
            Pure::Single { part, .. } => part.scalar(it, left),
            Pure::Joined { first, second } => {
                let value = first.scalar(it, left)?;
                second.scalar(it, Some(value))
            }
        }
    }

    /// Its one value, its error, or that it gives none.
    #[cycle(tell)]
    fn tell(&self, alloc: Global, scope: &Scope<'_>, scene: &Scene) -> Step
        ensures goes { (w : WorldState) (l : List Key)
            → Goes l (core w scene.now (pure_shape self.now) (seen scope.now)) result l none }
        ensures told { IsTold result }
    {
        match self {
            Pure::Constant(value) => copied(Some(value)),
            Pure::It => copied(scope.it),
            Pure::Left => copied(scope.left),
            Pure::Applied { part, apply } => applied(part, *apply, alloc, scope, scene),
            Pure::Single { part, place } => single(part, *place, alloc, scope, scene),
            Pure::Joined { first, second } => joined(first, second, alloc, scope, scene),
        }
    }

    /// The value that it gives, where it stands somewhere already and need not be made.
    fn standing<'a>(&'a self, scope: &Scope<'a>) -> Option<&'a Held>
        ensures { (w : WorldState) (s : Scene)
            → IfSome result (λ value. core w s (pure_shape self.now) (seen scope.now) ≡ one value.now) }
    {
        match self {
            Pure::Constant(value) => Some(value),
            Pure::It => scope.it,
            Pure::Left => scope.left,
            Pure::Applied { .. } | Pure::Single { .. } | Pure::Joined { .. } => None,
        }
    }
}

/// What a sign or a cast makes of a part.
#[cycle(tell)]
#[inline(never)]
fn applied(part: &Pure, apply: Apply, alloc: Global, scope: &Scope<'_>, scene: &Scene) -> Step
    ensures goes { (w : WorldState) (l : List Key)
        → Goes l (core w scene.now (one_core (apply_kind apply) (pure_shape part.now)) (seen scope.now)) result l none }
    ensures told { IsTold result }
{
    // Both are lent anew, for as long as the value is looked at.
    if let Some(value) = (&*part).standing(&*scope) {
        return apply.tell(alloc, scope.left, value, scene.offset);
    }
    match part.tell(alloc, scope, scene) {
        Step::Given(value) => apply.tell(alloc, scope.left, &value, scene.offset),
        step => step,
    }
}

/// The one value of a part. None is an error at this place.
#[cycle(tell)]
#[inline(never)]
fn single(part: &Pure, place: Place, alloc: Global, scope: &Scope<'_>, scene: &Scene) -> Step
    ensures goes { (w : WorldState) (l : List Key)
        → Goes l (core w scene.now (one_core (single_kind place) (pure_shape part.now)) (seen scope.now)) result l none }
    ensures told { IsTold result }
{
    match part.tell(alloc, scope, scene) {
        Step::Over => Step::Erred(RelKind::Nonexistent, place),
        step => step,
    }
}

/// The second part with the value of the first to its left.
#[cycle(tell)]
#[inline(never)]
fn joined(first: &Pure, second: &Pure, alloc: Global, scope: &Scope<'_>, scene: &Scene) -> Step
    ensures goes { (w : WorldState) (l : List Key)
        → Goes l (core w scene.now (two_core left_kind (pure_shape first.now) (pure_shape second.now)) (seen scope.now))
        result l none }
    ensures told { IsTold result }
{
    // Both are lent anew, for as long as the value is looked at.
    if let Some(value) = (&*first).standing(&*scope) {
        let inner = Scope {
            left: Some(value),
            ..*scope
        };
        return second.tell(alloc, &inner, scene);
    }
    match first.tell(alloc, scope, scene) {
        Step::Given(value) => {
            let inner = Scope {
                left: Some(&value),
                ..*scope
            };
            second.tell(alloc, &inner, scene)
        }
        step => step,
    }
}

/// The value as a scalar, if there is one and it is one.
fn scalar_in(value: Option<&Held>) -> Option<Scalar>
    ensures { IfSome result (λ x. lent value.entry ≡ Some (plain x)) }
{
    Scalar::of(value?)
}

/// A copy of a value, if there is one.
#[inline(never)]
fn copied(value: Option<&Held>) -> Step
    ensures goes { (l : List Key) → Goes l (given (lent value.entry)) result l none }
    ensures told { IsTold result }
{
    match value {
        None => Step::Over,
        Some(value) => match value.copy() {
            Ok(copied) => Step::Given(copied),
            Err(_) => Step::Memory,
        },
    }
}
