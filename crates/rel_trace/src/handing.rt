ghost use Rattle.std.specs.Prelude.{◌≡◌, ◌≤◌, ◌<◌, ◌+◌, ℕ, List, Bool, true, false, None};
ghost use Rattle.bf_world.specs.declared.key.Key.{Key};
ghost use Rattle.rel_trace.specs.Trace.{Trace, follow, none};
ghost use Rattle.rel_trace.specs.declared.step.Step.TheVariants.{Memory};
ghost use Rattle.rel_trace.specs.Steps.{Goes, has_failed, AsRoom, Falls};
ghost use Rattle.rel_trace.specs.Scopes.{Around, seen};
ghost use Rattle.rel_trace.specs.Twos.{begun, begun_quiet, first_quiet, handed_down, handing_kind, handing_rest, handing_on, handing_quiet, led, two_whole, with_handed};

use crate::{Held, Next, Scope, Step};
use rel_lexer::Place;

/// How a value of the first part is handed down to the second.
#[derive(Clone, Copy)]
pub enum Hand {
    /// As `it`, after a turn at the head.
    Each { head: Place },
    /// As argument.
    Argument,
    /// As the value to its left.
    Left,
    /// As the value to its left, after a turn at the first part's span.
    Turned { span: Place },
}

/// A form whose second part begins anew for each value of the first, which is handed down to it.
#[derive(Drop)]
pub struct Handing {
    pub hand: Hand,
    /// The value that is handed down while the second part goes on.
    pub held: Option<Held>,
}

impl Hand {
    /// The step before the second part.
    fn opening(self) -> Step
        ensures goes { (l : List Key) (t u : Trace) → Goes l (follow (led self t) u) result l (follow t u) }
        ensures failed { has_failed result ≡ false }
        ensures room { (r : Bool) → AsRoom r result }
        ensures memory { result ≡ Memory → ⊥ }
        ensures falls { (q q' c : ℕ) → q' < q → Falls result (first_quiet self q c) (first_quiet self q' c + (c + 1)) }
    {
        match self {
            Hand::Each { head } => Step::Turned(head),
            Hand::Argument => Step::Quiet,
            Hand::Left => Step::Quiet,
            Hand::Turned { span } => Step::Turned(span),
        }
    }

    /// The scope of the second part.
    fn hand_down<'a>(self, value: &'a Held, scope: Scope<'a>) -> Scope<'a>
        ensures { seen result ≡ with_handed self value.now (seen scope.entry) }
    {
        match self {
            Hand::Each { .. } => Scope {
                it: Some(value),
                ..scope
            },
            Hand::Argument => Scope {
                argument: Some(value),
                ..scope
            },
            Hand::Left => Scope {
                left: Some(value),
                ..scope
            },
            Hand::Turned { .. } => Scope {
                left: Some(value),
                ..scope
            },
        }
    }
}

impl Handing {
    pub(crate) fn new(hand: Hand) -> Handing
        ensures { result ≡ record { hand = hand; held = None } }
    {
        Handing { hand, held: None }
    }

    pub(crate) fn on_second(&self) -> bool
        ensures { result ≡ handing_on self.now }
    {
        self.held.is_some()
    }

    pub(crate) fn reset(&mut self)
        ensures kind { handing_kind self.new ≡ handing_kind self.old }
        ensures rest { (a : Trace) (b f : Around → Trace) (s : Around)
            → handing_rest self.new a b f s ≡ two_whole (handing_kind self.old) a f s }
    {
        drop(self.held.take());
    }

    /// Gives up what was handed to the second part, which has nothing left.
    pub(crate) fn release(&mut self)
        ensures kind { handing_kind self.new ≡ handing_kind self.old }
        ensures given_up { handing_on self.new ≡ false }
        ensures rest { (a : Trace) (b f : Around → Trace) (s : Around) → b (handed_down self.old s) ≡ none
            → handing_rest self.new a b f s ≡ handing_rest self.old a b f s }
        ensures falls { (q r c : ℕ) → handing_quiet self.new q r c ≤ handing_quiet self.old q r c }
    {
        drop(self.held.take());
    }

    /// What is handed down to the second part.
    pub(crate) fn hand_down<'a>(&'a self, scope: Scope<'a>) -> Scope<'a>
        ensures { seen result ≡ handed_down self.now (seen scope.entry) }
    {
        match &self.held {
            Some(value) => self.hand.hand_down(value, scope),
            None => scope,
        }
    }

    /// After a step of the first part.
    #[inline(always)]
    pub(crate) fn after_first(&mut self, step: Step) -> Next
        requires { handing_on self.old ≡ false }
        ensures kind { handing_kind self.new ≡ handing_kind self.old }
        ensures goes { (l l' : List Key) (t t' : Trace) (b f : Around → Trace) (s : Around) → Goes l t step l' t'
            → Goes l (handing_rest self.old t b f s) result.step l' (handing_rest self.new t' (begun result.begins b f) f s) }
        ensures failed { has_failed result.step ≡ has_failed step }
        ensures room { (r : Bool) → AsRoom r step → AsRoom r result.step }
        ensures begins { result.begins ≡ handing_on self.new }
        ensures memory { result.step ≡ Memory → step ≡ Memory }
        ensures falls { (q q' r c : ℕ) → Falls step q q'
            → Falls result.step (handing_quiet self.old q r c) (handing_quiet self.new q' (begun_quiet result.begins r c) c) }
    {
        match step {
            Step::Given(value) => {
                self.held = Some(value);
                Next::beginning(self.hand.opening())
            }
            other => Next::going_on(other),
        }
    }

    /// After a step of the second part.
    #[inline(always)]
    pub(crate) fn after_second(&mut self, step: Step) -> Step
        requires { handing_on self.old ≡ true }
        ensures kind { handing_kind self.new ≡ handing_kind self.old }
        ensures goes { (l l' : List Key) (a : Trace) (b b' f : Around → Trace) (s : Around)
            → Goes l (b (handed_down self.old s)) step l' (b' (handed_down self.old s))
            → Goes l (handing_rest self.old a b f s) result l' (handing_rest self.new a b' f s) }
        ensures failed { has_failed result ≡ has_failed step }
        ensures room { (r : Bool) → AsRoom r step → AsRoom r result }
        ensures memory { result ≡ Memory → step ≡ Memory }
        ensures falls { (q r r' c : ℕ) → Falls step r r'
            → Falls result (handing_quiet self.old q r c) (handing_quiet self.new q r' c) }
    {
        match step {
            Step::Over => {
                drop(self.held.take());
                Step::Quiet
            }
            other => other,
        }
    }
}
