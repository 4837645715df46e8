ghost use Rattle.std.specs.Prelude.{◌≡◌, ◌≤◌, ◌&&◌, ℕ, List, Bool, true, false};
ghost use Rattle.bf_world.specs.declared.key.Key.{Key};
ghost use Rattle.rel_trace.specs.Trace.{Trace, none};
ghost use Rattle.rel_trace.specs.declared.step.Step.TheVariants.{Memory};
ghost use Rattle.rel_trace.specs.Steps.{Goes, has_failed, AsRoom, Falls};
ghost use Rattle.rel_trace.specs.Scopes.{Around, seen};
ghost use Rattle.rel_trace.specs.Twos.{argument_kind, bar_kind, begun, begun_quiet, each_kind, ends_with_first, left_kind, logic_kind, on_second, second_around, sift_kind, then_kind, turned_kind, two_kind, two_left, two_quiet, two_whole, waits_for_end};

use crate::{Filter, Hand, Handing, Logic, Next, Order, Scope, Sequence, Step};
use rel_lexer::Place;

/// The state of a form with two parts.
#[derive(Drop)]
pub enum Two {
    Sequence(Sequence),
    Handing(Handing),
    Filter(Filter),
}

impl Two {
    /// The values of the first part, and then those of the second.
    pub fn then() -> Two
        ensures kind { two_kind result ≡ then_kind }
        ensures rest { (a : Trace) (b f : Around → Trace) (s : Around) → two_left result a b f s ≡ two_whole (then_kind) a f s }
    {
        Two::Sequence(Sequence::new(Order::Then))
    }

    /// `|`
    pub fn bar() -> Two
        ensures kind { two_kind result ≡ bar_kind }
        ensures rest { (a : Trace) (b f : Around → Trace) (s : Around) → two_left result a b f s ≡ two_whole (bar_kind) a f s }
    {
        Two::Sequence(Sequence::new(Order::Bar))
    }

    /// `and` and `or`
    pub fn logical(logic: Logic) -> Two
        ensures kind { two_kind result ≡ logic_kind logic }
        ensures rest { (a : Trace) (b f : Around → Trace) (s : Around)
            → two_left result a b f s ≡ two_whole (logic_kind logic) a f s }
    {
        Two::Sequence(Sequence::new(Order::Logical(logic)))
    }

    /// The second part for each value of the first as `it`, with the head at this place.
    pub fn each(head: Place) -> Two
        ensures kind { two_kind result ≡ each_kind head }
        ensures rest { (a : Trace) (b f : Around → Trace) (s : Around)
            → two_left result a b f s ≡ two_whole (each_kind head) a f s }
    {
        Two::Handing(Handing::new(Hand::Each { head }))
    }

    /// The values of the first part that the second keeps, which sees each as `it`. The head is at this place.
    pub fn sift(head: Place) -> Two
        ensures kind { two_kind result ≡ sift_kind head }
        ensures rest { (a : Trace) (b f : Around → Trace) (s : Around)
            → two_left result a b f s ≡ two_whole (sift_kind head) a f s }
    {
        Two::Filter(Filter::new(head))
    }

    /// The second part with the value of the first as argument.
    pub fn argument() -> Two
        ensures kind { two_kind result ≡ argument_kind }
        ensures rest { (a : Trace) (b f : Around → Trace) (s : Around)
            → two_left result a b f s ≡ two_whole (argument_kind) a f s }
    {
        Two::Handing(Handing::new(Hand::Argument))
    }

    /// The second part with the value of the first to its left.
    pub fn left() -> Two
        ensures kind { two_kind result ≡ left_kind }
        ensures rest { (a : Trace) (b f : Around → Trace) (s : Around) → two_left result a b f s ≡ two_whole (left_kind) a f s }
    {
        Two::Handing(Handing::new(Hand::Left))
    }

    /// A turn at the first part's span, and then the second part with the value of the first to its left.
    pub fn turned(span: Place) -> Two
        ensures kind { two_kind result ≡ turned_kind span }
        ensures rest { (a : Trace) (b f : Around → Trace) (s : Around)
            → two_left result a b f s ≡ two_whole (turned_kind span) a f s }
    {
        Two::Handing(Handing::new(Hand::Turned { span }))
    }

    /// Whether the next step is one of the second part.
    pub fn on_second(&self) -> bool
        ensures { result ≡ on_second self.now }
    {
        match self {
            Two::Sequence(sequence) => sequence.on_second,
            Two::Handing(handing) => handing.on_second(),
            Two::Filter(filter) => filter.on_second(),
        }
    }

    /// Begins anew. The first part does so too, and the second where `Next::begins` says so.
    pub fn reset(&mut self)
        ensures kind { two_kind self.new ≡ two_kind self.old }
        ensures rest { (a : Trace) (b f : Around → Trace) (s : Around)
            → two_left self.new a b f s ≡ two_whole (two_kind self.old) a f s }
    {
        match self {
            Two::Sequence(sequence) => sequence.reset(),
            Two::Handing(handing) => handing.reset(),
            Two::Filter(filter) => filter.reset(),
        }
    }

    /// The scope of the second part. That of the first is the form's own.
    pub fn second_scope<'a>(&'a self, scope: Scope<'a>) -> Scope<'a>
        ensures { seen result ≡ second_around self.now (seen scope.entry) }
    {
        match self {
            Two::Handing(handing) => handing.hand_down(scope),
            Two::Filter(filter) => filter.hand_down(scope),
            Two::Sequence(_) => scope,
        }
    }

    /// The step that follows from a step of the first part, and whether the second begins now.
    #[inline(always)]
    pub fn after_first(&mut self, step: Step) -> Next
        requires { on_second self.old ≡ false }
        ensures kind { two_kind self.new ≡ two_kind self.old }
        ensures goes { (l l' : List Key) (t t' : Trace) (b f : Around → Trace) (s : Around) → Goes l t step l' t'
            → Goes l (two_left self.old t b f s) result.step l' (two_left self.new t' (begun result.begins b f) f s) }
        ensures failed { has_failed result.step ≡ has_failed step }
        ensures room { (r : Bool) → AsRoom r step → AsRoom r result.step }
        ensures begins { result.begins ≡ on_second self.new }
        ensures memory { result.step ≡ Memory → step ≡ Memory }
        ensures falls { (q q' r c : ℕ) → Falls step q q'
            → Falls result.step (two_quiet self.old q r c) (two_quiet self.new q' (begun_quiet result.begins r c) c) }
    {
        match self {
            Two::Sequence(sequence) => sequence.after_first(step),
            Two::Handing(handing) => handing.after_first(step),
            Two::Filter(filter) => filter.after_first(step),
        }
    }

    /// The step that follows from a step of the second part.
    #[inline(always)]
    pub fn after_second(&mut self, step: Step) -> Step
        requires { on_second self.old ≡ true }
        ensures kind { two_kind self.new ≡ two_kind self.old }
        ensures goes { (l l' : List Key) (a : Trace) (b b' f : Around → Trace) (s : Around)
            → Goes l (b (second_around self.old s)) step l' (b' (second_around self.old s))
            → Goes l (two_left self.old a b f s) result l' (two_left self.new a b' f s) }
        ensures failed { has_failed result ≡ has_failed step }
        ensures room { (r : Bool) → AsRoom r step → AsRoom r result }
        ensures memory { result ≡ Memory → step ≡ Memory }
        ensures falls { (q r r' c : ℕ) → Falls step r r' → Falls result (two_quiet self.old q r c) (two_quiet self.new q r' c) }
    {
        match self {
            Two::Sequence(sequence) => sequence.after_second(step),
            Two::Handing(handing) => handing.after_second(step),
            Two::Filter(filter) => filter.after_second(step),
        }
    }

    /// Gives up what was handed to the second part, where nothing is left of that: the next step is one of the first part, but in a
    /// filter and in a sequence.
    pub fn release(&mut self)
        ensures kind { two_kind self.new ≡ two_kind self.old }
        ensures given_up { on_second self.new ≡ (waits_for_end (two_kind self.old) && on_second self.old) }
        ensures rest { (a : Trace) (b f : Around → Trace) (s : Around) → b (second_around self.old s) ≡ none
            → two_left self.new a b f s ≡ two_left self.old a b f s }
        ensures falls { (q r c : ℕ) → two_quiet self.new q r c ≤ two_quiet self.old q r c }
    {
        match self {
            Two::Handing(handing) => handing.release(),
            Two::Sequence(_) | Two::Filter(_) => {}
        }
    }

    /// Whether nothing is left where the first part has nothing left, or not even then.
    pub fn ends_with_first(&self) -> bool
        ensures exact { result ≡ ends_with_first self.now }
        ensures none { result ≡ true → (b f : Around → Trace) (s : Around) → two_left self.now none b f s ≡ none }
    {
        match self {
            Two::Sequence(_) => false,
            Two::Handing(handing) => !handing.on_second(),
            Two::Filter(filter) => !filter.on_second(),
        }
    }
}
