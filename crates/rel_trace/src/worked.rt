ghost use Rattle.std.specs.Prelude.{ℕ, ◌<◌, Bool, List, IfOk, false, ◌≡◌};
ghost use Rattle.bf_world.specs.declared.key.Key.{Key};
ghost use Rattle.rel_value.specs.Operands.{IsSound};
ghost use Rattle.rel_value.specs.Outcomes.{Answers, Outcome};
ghost use Rattle.rel_value.specs.Views.{shown};
ghost use Rattle.rel_trace.specs.Steps.{AsRoom, Falls, Goes, has_failed, IsTold};
ghost use Rattle.rel_trace.specs.Trace.{Trace, follow, none, result_at};
ghost use Rattle.rel_trace.specs.Works.{HasRow, Works};

use crate::{Held, RelKind, Step};
use rel_lexer::Place;
use rel_value::{Value, ValueFault};

/// What a call on values answers.
#[derive(Drop)]
pub(crate) enum Worked {
    Given(Held),
    Failed(RelKind),
    /// There is no row for such values.
    Without,
    Memory,
}

impl Worked {
    /// The answer of a call for which there is a row.
    pub(crate) fn of(answer: Result<Value, ValueFault>) -> Worked
        requires { IfOk answer (λ value. IsSound (shown value)) }
        ensures { (o : Outcome) → HasRow o → Answers o answer → Works o result }
    {
        match answer {
            Ok(value) => Worked::Given(Held::new(value)),
            Err(ValueFault::Memory) => Worked::Memory,
            Err(fault) => Worked::Failed(RelKind::of_fault(fault)),
        }
    }

    /// The step that gives it, or fails at a place.
    pub(crate) fn at(self, place: Place) -> Step
        ensures goes { (o : Outcome) → Works o self → (l : List Key) (t : Trace)
            → Goes l (follow (result_at place o) t) result l t }
        ensures failed { has_failed result ≡ false }
        ensures room { (r : Bool) → AsRoom r result }
        ensures falls { (q q' : ℕ) → q' < q → Falls result q q' }
    {
        match self {
            Worked::Given(value) => Step::Given(value),
            Worked::Failed(kind) => Step::Erred(kind, place),
            Worked::Without => Step::Quiet,
            Worked::Memory => Step::Memory,
        }
    }

    /// The one step that tells it, or its failure at a place. Where there is no row, nothing is left.
    pub(crate) fn told(self, place: Place) -> Step
        ensures goes { (o : Outcome) → Works o self → (l : List Key) → Goes l (result_at place o) result l none }
        ensures told { IsTold result }
    {
        match self {
            Worked::Given(value) => Step::Given(value),
            Worked::Failed(kind) => Step::Erred(kind, place),
            Worked::Without => Step::Over,
            Worked::Memory => Step::Memory,
        }
    }
}
