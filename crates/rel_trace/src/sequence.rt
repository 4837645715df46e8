ghost use Rattle.std.specs.Prelude.{◌≡◌, ℕ, List, Bool, true, false};
ghost use Rattle.bf_world.specs.declared.key.Key.{Key};
ghost use Rattle.rel_trace.specs.Trace.{Trace};
ghost use Rattle.rel_trace.specs.declared.step.Step.TheVariants.{Memory};
ghost use Rattle.rel_trace.specs.Steps.{Goes, has_failed, AsRoom, Falls};
ghost use Rattle.rel_trace.specs.Scopes.{Around};
ghost use Rattle.rel_trace.specs.Twos.{begun, begun_quiet, sequence_kind, sequence_rest, sequence_on, sequence_quiet, two_whole};

use crate::{Held, Logic, Next, Step};

/// How the second part of a sequence follows the first.
#[derive(Clone, Copy)]
pub enum Order {
    /// The values of the first part, and then those of the second.
    Then,
    /// `|`: the second part where the first ends in an error that is caught.
    Bar,
    /// `and` and `or`: the second part where the first does not decide.
    Logical(Logic),
}

/// A form whose second part sees the scope of the first.
#[derive(Drop)]
pub struct Sequence {
    pub order: Order,
    /// The second part has begun.
    pub on_second: bool,
}

impl Sequence {
    pub(crate) fn new(order: Order) -> Sequence
        ensures { result ≡ record { order = order; on_second = false } }
    {
        Sequence {
            order,
            on_second: false,
        }
    }

    pub(crate) fn reset(&mut self)
        ensures kind { sequence_kind self.new ≡ sequence_kind self.old }
        ensures rest { (a : Trace) (b f : Around → Trace) (s : Around)
            → sequence_rest self.new a b f s ≡ two_whole (sequence_kind self.old) a f s }
    {
        self.on_second = false;
    }

    /// After a step of the first part.
    pub(crate) fn after_first(&mut self, step: Step) -> Next
        requires { sequence_on self.old ≡ false }
        ensures kind { sequence_kind self.new ≡ sequence_kind self.old }
        ensures goes { (l l' : List Key) (t t' : Trace) (b f : Around → Trace) (s : Around) → Goes l t step l' t'
            → Goes l (sequence_rest self.old t b f s) result.step l' (sequence_rest self.new t' (begun result.begins b f) f s) }
        ensures failed { has_failed result.step ≡ has_failed step }
        ensures room { (r : Bool) → AsRoom r step → AsRoom r result.step }
        ensures begins { result.begins ≡ sequence_on self.new }
        ensures memory { result.step ≡ Memory → step ≡ Memory }
        ensures falls { (q q' r c : ℕ) → Falls step q q'
            → Falls result.step (sequence_quiet self.old q r c) (sequence_quiet self.new q' (begun_quiet result.begins r c) c) }
    {
        match self.order {
            Order::Then => match step {
                Step::Over => {
                    self.on_second = true;
                    Next::beginning(Step::Quiet)
                }
                other => Next::going_on(other),
            },
            Order::Bar => match step {
                Step::Erred(kind, place) => {
                    if kind.is_caught() {
                        self.on_second = true;
                        Next::beginning(Step::Quiet)
                    } else {
                        Next::going_on(Step::Erred(kind, place))
                    }
                }
                other => Next::going_on(other),
            },
            Order::Logical(logic) => match step {
                Step::Given(value) => {
                    let left = value.is_true();
                    drop(value);
                    if logic.decides(left) {
                        Next::going_on(Step::Given(Held::boolean(left)))
                    } else {
                        self.on_second = true;
                        Next::beginning(Step::Quiet)
                    }
                }
                other => Next::going_on(other),
            },
        }
    }

    /// After a step of the second part.
    pub(crate) fn after_second(&mut self, step: Step) -> Step
        requires { sequence_on self.old ≡ true }
        ensures kind { sequence_kind self.new ≡ sequence_kind self.old }
        ensures goes { (l l' : List Key) (a : Trace) (b b' f : Around → Trace) (s : Around) → Goes l (b s) step l' (b' s)
            → Goes l (sequence_rest self.old a b f s) result l' (sequence_rest self.new a b' f s) }
        ensures failed { has_failed result ≡ has_failed step }
        ensures room { (r : Bool) → AsRoom r step → AsRoom r result }
        ensures memory { result ≡ Memory → step ≡ Memory }
        ensures falls { (q r r' c : ℕ) → Falls step r r'
            → Falls result (sequence_quiet self.old q r c) (sequence_quiet self.new q r' c) }
    {
        match self.order {
            Order::Then | Order::Bar => step,
            Order::Logical(_) => match step {
                Step::Over => {
                    self.on_second = false;
                    Step::Quiet
                }
                other => other,
            },
        }
    }
}
