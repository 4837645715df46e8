ghost use Rattle.std.specs.Prelude.{◌≡◌, ℕ, ◌+◌, ◌<◌, ℤ, List, Bool, false, Option, Some};
ghost use Rattle.bf_world.specs.declared.key.Key.{Key};
ghost use Rattle.rel_value.specs.Outcomes.{Outcome};
ghost use Rattle.rel_value.specs.Plain.{Plain};
ghost use Rattle.rel_trace.specs.Trace.{Trace};
ghost use Rattle.rel_trace.specs.Steps.{Goes, has_failed, AsRoom, Falls};
ghost use Rattle.rel_trace.specs.Folds.{folded, held_first, onward};
ghost use Rattle.rel_trace.specs.Ones.{fold_kind, fold_left, one_whole, zero_if};
ghost use Rattle.rel_trace.specs.Scopes.{Around, lent};
ghost use Rattle.rel_trace.specs.Works.{Works};

use crate::worked::Worked;
use crate::{Fold, Held, Step};
use rel_lexer::Place;
use std::alloc::Global;

/// An aggregate of the values of its part. The place is the head's.
#[derive(Drop)]
pub struct Folding {
    pub fold: Fold,
    pub place: Place,
    /// What the values so far make.
    pub held: Option<Held>,
    pub done: bool,
}

impl Folding {
    pub(crate) fn new(fold: Fold, place: Place) -> Folding
        ensures { result ≡ record { fold = fold; place = place; held = held_first fold; done = false } }
    {
        Folding {
            fold,
            place,
            held: fold.held_first(),
            done: false,
        }
    }

    pub(crate) fn reset(&mut self)
        ensures kind { self.new.fold ≡ self.old.fold }
        ensures place { self.new.place ≡ self.old.place }
        ensures rest { (s : Around) (offset : ℤ) (t : Trace)
            → fold_left self.new s.argument t ≡ one_whole (fold_kind self.old.fold self.old.place) s offset t }
    {
        self.held = self.fold.held_first();
        self.done = false;
    }

    /// After a step of the part. The separator is that of a concatenation.
    pub(crate) fn after(&mut self, alloc: Global, step: Step, separator: Option<&Held>) -> Step
        requires { self.old.done ≡ false }
        ensures kind { self.new.fold ≡ self.old.fold }
        ensures place { self.new.place ≡ self.old.place }
        ensures goes { (l l' : List Key) (t t' : Trace) → Goes l t step l' t'
            → Goes l (fold_left self.old (lent separator.entry) t) result l' (fold_left self.new (lent separator.entry) t') }
        ensures failed { has_failed result ≡ has_failed step }
        ensures room { (r : Bool) → AsRoom r step → AsRoom r result }
        ensures falls { (q q' : ℕ) → Falls step q q'
            → Falls result (zero_if self.old.done (q + 1)) (zero_if self.new.done (q' + 1)) }
    {
        match step {
            Step::Given(value) => {
                let worked = self.fold.more(alloc, separator, self.held.take(), value);
                self.go_on(worked)
            }
            Step::Over => match self.fold.sum_up(alloc, self.held.take()) {
                Worked::Given(value) => {
                    self.done = true;
                    Step::Given(value)
                }
                Worked::Memory => Step::Memory,
                _ => Step::Over,
            },
            other => other,
        }
    }

    /// After one more value, with what it makes of those before it.
    fn go_on(&mut self, worked: Worked) -> Step
        requires { self.old.done ≡ false }
        ensures kind { self.new.fold ≡ self.old.fold }
        ensures place { self.new.place ≡ self.old.place }
        ensures goes { (o : Outcome) (separator : Option Plain) (l : List Key) (t : Trace) → Works o worked
            → Goes l (onward self.old.fold self.old.place o (λ h. folded self.old.fold separator self.old.place (Some h) t))
            result l (fold_left self.new separator t) }
        ensures failed { has_failed result ≡ false }
        ensures room { (r : Bool) → AsRoom r result }
        ensures falls { (q q' : ℕ) → q' < q → Falls result (q + 1) (zero_if self.new.done (q' + 1)) }
    {
        match worked {
            Worked::Given(value) => {
                if self.fold.is_settled(&value) {
                    self.done = true;
                    return Step::Given(value);
                }
                self.held = Some(value);
                Step::Quiet
            }
            Worked::Failed(kind) => Step::Erred(kind, self.place),
            Worked::Without => Step::Over,
            Worked::Memory => Step::Memory,
        }
    }
}
