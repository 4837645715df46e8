ghost use Rattle.std.specs.Prelude.{◌≡◌, ℕ, List, Bool, true, false, not};
ghost use Rattle.bf_world.specs.declared.key.Key.{Key};
ghost use Rattle.rel_trace.specs.Trace.{Trace};
ghost use Rattle.rel_trace.specs.declared.step.Step.TheVariants.{Memory};
ghost use Rattle.rel_trace.specs.Steps.{Goes, has_failed, AsRoom, Falls};
ghost use Rattle.rel_trace.specs.Scopes.{Around};
ghost use Rattle.rel_trace.specs.Choices.{branch_left, branch_quiet, choice_left, choice_quiet, choice_whole, is_test};
ghost use Rattle.rel_trace.specs.Twos.{begun, begun_quiet};

use crate::{Next, Step};

/// The state of an `if`: the part whose step is next.
#[derive(Clone, Copy)]
pub enum Choice {
    Test,
    Yes,
    No,
}

impl Choice {
    /// Before the first step of the test.
    pub fn new() -> Choice
        ensures { (a : Trace) (b c f g : Around → Trace) (s : Around) → choice_left result a b c f g s ≡ choice_whole a f g s }
    {
        Choice::Test
    }

    /// Begins anew. The test does so too.
    pub fn reset(&mut self)
        ensures { (a : Trace) (b c f g : Around → Trace) (s : Around) → choice_left self.new a b c f g s ≡ choice_whole a f g s }
    {
        *self = Choice::Test;
    }

    /// The step that follows from a step of the test, and whether the branch that is chosen begins now.
    pub fn after_test(&mut self, step: Step) -> Next
        requires { is_test self.old ≡ true }
        ensures goes { (l l' : List Key) (t t' : Trace) (b c f g : Around → Trace) (s : Around) → Goes l t step l' t'
            → Goes l (choice_left self.old t b c f g s)
            result.step l' (choice_left self.new t' (begun result.begins b f) (begun result.begins c g) f g s) }
        ensures failed { has_failed result.step ≡ has_failed step }
        ensures room { (r : Bool) → AsRoom r step → AsRoom r result.step }
        ensures begins { result.begins ≡ not (is_test self.new) }
        ensures memory { result.step ≡ Memory → step ≡ Memory }
        ensures falls { (q q' r w c d : ℕ) → Falls step q q'
            → Falls result.step (choice_quiet self.old q r w c d)
            (choice_quiet self.new q' (begun_quiet result.begins r c) (begun_quiet result.begins w d) c d) }
    {
        match step {
            Step::Given(value) => {
                let is_yes = value.is_true();
                drop(value);
                if is_yes {
                    *self = Choice::Yes;
                    Next::beginning(Step::Quiet)
                } else {
                    *self = Choice::No;
                    Next::beginning(Step::Quiet)
                }
            }
            other => Next::going_on(other),
        }
    }

    /// The step that follows from a step of the branch that was chosen.
    pub fn after_branch(&mut self, step: Step) -> Step
        requires { is_test self.old ≡ false }
        ensures goes { (l l' : List Key) (a : Trace) (b c b' c' f g : Around → Trace) (s : Around)
            → Goes l (branch_left self.old b c s) step l' (branch_left self.old b' c' s)
            → Goes l (choice_left self.old a b c f g s) result l' (choice_left self.new a b' c' f g s) }
        ensures failed { has_failed result ≡ has_failed step }
        ensures room { (r : Bool) → AsRoom r step → AsRoom r result }
        ensures memory { result ≡ Memory → step ≡ Memory }
        ensures falls { (q r w r' w' c d : ℕ) → Falls step (branch_quiet self.old r w) (branch_quiet self.old r' w')
            → Falls result (choice_quiet self.old q r w c d) (choice_quiet self.new q r' w' c d) }
    {
        match step {
            Step::Over => {
                *self = Choice::Test;
                Step::Quiet
            }
            other => other,
        }
    }
}
