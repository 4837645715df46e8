ghost use Rattle.std.specs.Prelude.{◌≡◌, [], All};
ghost use Rattle.desk_base.specs.CallStates.{no_calls};
ghost use Rattle.desk_base.specs.Moments.{IsMoment, AsksMoment};
ghost use Rattle.desk_base.specs.MemoryStates.{StepsMemory, clock_view};

use crate::{Calls, Clock, Told};
use std::alloc::Global;
use std::marker::Model;

/// A clock in memory. It gives a list of moments in turn, and fails where that is used up.
#[derive(Drop)]
pub struct StepClock {
    moments: Vec<i64>,
    at: usize,
    asked: Calls,
}

impl Model for StepClock {
    ghost use Rattle.std.specs.Prelude.{◌≤◌, length, take, drop, All};
    ghost use Rattle.desk_base.specs.Moments.{IsMoment};
    ghost use Rattle.desk_base.specs.MemoryStates.{ClockState};

    ghost Value = { ClockState };

    ghost view = { λ c. record { given = take c.at c.moments.items; left = drop c.at c.moments.items; calls = c.asked } };

    ghost invariant = { λ c. (c.at ≤ length c.moments.items) × All IsMoment c.moments.items };
}

impl StepClock {
    /// A clock of these moments. The calls with these numbers fail, counted from 1, and use up none.
    pub fn new(alloc: Global, moments: Vec<i64>, fails: Vec<u32>) -> StepClock
        requires { All IsMoment moments.items }
        ensures { result ≡ record { given = []; left = moments.items; calls = no_calls fails.items } }
    {
        StepClock {
            moments,
            at: 0,
            asked: Calls::new(alloc, fails),
        }
    }
}

impl Clock for StepClock {
    ghost told = { clock_view };

    fn now(&mut self) -> Told
        ensures asks { AsksMoment (clock_view self.old) result (clock_view self.new) }
        ensures memory { StepsMemory self.old self.new result }
    {
        if self.asked.begin() {
            self.asked.fault();
            return Told::Failed;
        }
        if self.at == self.moments.len() {
            self.asked.fault();
            return Told::Failed;
        }
        let moment = self.moments[self.at];
        self.at += 1;
        Told::Moment(moment)
    }
}
