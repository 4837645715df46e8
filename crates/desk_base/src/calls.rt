ghost use Rattle.std.specs.Prelude.{◌≡◌, ◌↔◌, ◌≤◌, IsTrue, Contains};
ghost use Rattle.desk_base.specs.CallStates.{IsListed, no_calls, one_call, one_fault};

use std::alloc::Global;
use std::marker::Model;

/// The calls of an object in memory: which of them are to fail, how many there were, and how many failed.
/// Both counts stand still at the last value of a u64.
#[derive(Drop)]
pub struct Calls {
    fails: Vec<u32>,
    made: u64,
    faults: u64,
}

impl Model for Calls {
    ghost use Rattle.desk_base.specs.CallStates.{CallState};

    ghost Value = { CallState };

    ghost view = { λ c. record { fails = c.fails.items; made = c.made; faults = c.faults } };
}

impl Calls {
    /// No calls yet. Those with these numbers are to fail, counted from 1.
    pub fn new(_alloc: Global, fails: Vec<u32>) -> Calls
        ensures { result ≡ no_calls fails.items }
    {
        Calls {
            fails,
            made: 0,
            faults: 0,
        }
    }

    /// Counts a call, and answers whether it is one of those that are to fail.
    pub fn begin(&mut self) -> bool
        ensures counted { self.new ≡ one_call self.old }
        ensures listed { IsTrue result ↔ IsListed self.new }
    {
        self.made = self.made.saturating_add(1);
        is_among(&self.fails, self.made)
    }

    /// Counts a fault.
    pub fn fault(&mut self)
        ensures counted { self.new ≡ one_fault self.old }
        ensures later { self.old.faults ≤ self.new.faults }
    {
        self.faults = self.faults.saturating_add(1);
    }
}

fn is_among(numbers: &[u32], number: u64) -> bool
    ensures { IsTrue result ↔ Contains numbers.now number }
{
    numbers.iter().any(|n| u64::from(*n) == number)
}
