ghost use Rattle.std.specs.Prelude.{◌≡◌, ℕ, List, Bool, true, false, None};
ghost use Rattle.bf_world.specs.declared.key.Key.{Key};
ghost use Rattle.rel_trace.specs.Trace.{Trace};
ghost use Rattle.rel_trace.specs.declared.step.Step.TheVariants.{Memory};
ghost use Rattle.rel_trace.specs.Steps.{Goes, has_failed, AsRoom, Falls};
ghost use Rattle.rel_trace.specs.Scopes.{Around, seen};
ghost use Rattle.rel_trace.specs.Twos.{begun, begun_quiet, filter_kind, filter_rest, filter_on, filter_quiet, two_whole, with_tested};

use crate::{Held, Next, Scope, Step};
use rel_lexer::Place;

/// The values of the first part for which the second, a test that sees each as `it`, gives True. The turns are at the head.
#[derive(Drop)]
pub struct Filter {
    pub head: Place,
    /// The value that is tested.
    pub held: Option<Held>,
    /// Whether the test gave True last.
    pub seen: bool,
}

impl Filter {
    pub(crate) fn new(head: Place) -> Filter
        ensures { result ≡ record { head = head; held = None; seen = false } }
    {
        Filter {
            head,
            held: None,
            seen: false,
        }
    }

    pub(crate) fn on_second(&self) -> bool
        ensures { result ≡ filter_on self.now }
    {
        self.held.is_some()
    }

    pub(crate) fn reset(&mut self)
        ensures kind { filter_kind self.new ≡ filter_kind self.old }
        ensures rest { (a : Trace) (b f : Around → Trace) (s : Around)
            → filter_rest self.new a b f s ≡ two_whole (filter_kind self.old) a f s }
    {
        drop(self.held.take());
    }

    /// What the test sees.
    pub(crate) fn hand_down<'a>(&'a self, scope: Scope<'a>) -> Scope<'a>
        ensures { seen result ≡ with_tested self.now.held (seen scope.entry) }
    {
        match &self.held {
            Some(value) => Scope {
                it: Some(value),
                ..scope
            },
            None => scope,
        }
    }

    /// After a step of the first part.
    #[inline(always)]
    pub(crate) fn after_first(&mut self, step: Step) -> Next
        requires { filter_on self.old ≡ false }
        ensures kind { filter_kind self.new ≡ filter_kind self.old }
        ensures goes { (l l' : List Key) (t t' : Trace) (b f : Around → Trace) (s : Around) → Goes l t step l' t'
            → Goes l (filter_rest self.old t b f s) result.step l' (filter_rest self.new t' (begun result.begins b f) f s) }
        ensures failed { has_failed result.step ≡ has_failed step }
        ensures room { (r : Bool) → AsRoom r step → AsRoom r result.step }
        ensures begins { result.begins ≡ filter_on self.new }
        ensures memory { result.step ≡ Memory → step ≡ Memory }
        ensures falls { (q q' r c : ℕ) → Falls step q q'
            → Falls result.step (filter_quiet self.old q r c) (filter_quiet self.new q' (begun_quiet result.begins r c) c) }
    {
        match step {
            Step::Given(value) => {
                self.held = Some(value);
                self.seen = false;
                Next::beginning(Step::Turned(self.head))
            }
            other => Next::going_on(other),
        }
    }

    /// After a step of the test.
    #[inline(always)]
    pub(crate) fn after_second(&mut self, step: Step) -> Step
        requires { filter_on self.old ≡ true }
        ensures kind { filter_kind self.new ≡ filter_kind self.old }
        ensures goes { (l l' : List Key) (a : Trace) (b b' f : Around → Trace) (s : Around)
            → Goes l (b (with_tested self.old.held s)) step l' (b' (with_tested self.old.held s))
            → Goes l (filter_rest self.old a b f s) result l' (filter_rest self.new a b' f s) }
        ensures failed { has_failed result ≡ has_failed step }
        ensures room { (r : Bool) → AsRoom r step → AsRoom r result }
        ensures memory { result ≡ Memory → step ≡ Memory }
        ensures falls { (q r r' c : ℕ) → Falls step r r'
            → Falls result (filter_quiet self.old q r c) (filter_quiet self.new q r' c) }
    {
        match step {
            Step::Given(value) => {
                self.seen = value.is_true();
                drop(value);
                Step::Quiet
            }
            Step::Over => match self.held.take() {
                Some(value) => {
                    if self.seen {
                        Step::Given(value)
                    } else {
                        drop(value);
                        Step::Quiet
                    }
                }
                None => Step::Quiet,
            },
            Step::Erred(kind, place) => {
                if kind.is_nonexistent() {
                    drop(self.held.take());
                    Step::Quiet
                } else {
                    Step::Erred(kind, place)
                }
            }
            other => other,
        }
    }
}
