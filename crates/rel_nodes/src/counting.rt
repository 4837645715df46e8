ghost use Rattle.std.specs.Prelude.{◌≡◌, ◌+◌, false, true};
ghost use Rattle.rel_trace.specs.Steps.{AsRoom};
ghost use Rattle.rel_nodes.specs.Steps.{PassedOver, IsStop, has_room};

use rel_trace::Step;

/// Passes over a step that is no stop: a quiet one, a look, and a turn where one is left. Looks and turns are counted down. At a stop it
/// is false, and nothing is counted.
pub(crate) fn pass_over(step: &Step, budget: &mut u64) -> bool
    requires { AsRoom (has_room budget.old) step.now }
    ensures on { result ≡ true → PassedOver budget.old step.now budget.new }
    ensures budget { result ≡ false → budget.new ≡ budget.old }
    ensures stop { result ≡ false → IsStop budget.new step.now }
{
    match step {
        Step::Quiet => true,
        Step::Looked(_) | Step::Turned(_) => count_down(budget),
        _ => false,
    }
}

/// Counts one down. Where none is left it is false.
fn count_down(budget: &mut u64) -> bool
    ensures on { result ≡ true → budget.old ≡ budget.new + 1 }
    ensures budget { result ≡ false → budget.new ≡ budget.old }
    ensures stop { result ≡ false → budget.new ≡ 0 }
{
    if *budget == 0 {
        return false;
    }
    *budget -= 1;
    true
}
