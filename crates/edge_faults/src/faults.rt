ghost use Rattle.std.specs.Prelude.{◌≡◌, ◌≤◌};
ghost use Rattle.desk_base.specs.Counts.{Rose};

use std::fmt::Display;
use std::io::{Eprint, Error};
use std::marker::Model;

/// The faults of a device. The count is a u64 that stands still at its last value; contracts see it. Each fault is told in one line on
/// standard error.
#[derive(Drop)]
pub struct Faults<E: Eprint> {
    device: &'static str,
    errors: E,
    count: u64,
}

impl<E: Eprint> Model for Faults<E> {
    ghost use Rattle.std.specs.Prelude.{ℕ};

    ghost Value = { ℕ };

    ghost view = { λ f. f.count };
}

impl<E: Eprint> Faults<E> {
    /// None so far of this device.
    pub fn none(device: &'static str, errors: E) -> Faults<E>
        ensures { result ≡ 0 }
    {
        Faults {
            device,
            errors,
            count: 0,
        }
    }

    /// Counts a fault of a call, and tells it with what the call was about and the reason. What can't be told is counted all the same.
    pub fn add<S: Display + Drop>(&mut self, call: &str, subject: S, reason: Error)
        ensures rose { Rose self.old self.new }
        ensures later { self.old ≤ self.new }
    {
        self.count = self.count.saturating_add(1);
        tell(&self.errors, self.device, call, subject, reason);
    }
}

/// Tells on standard error, in one line, what a call of a device has to say of what it was about. What can't be told is passed over.
pub fn tell<E: Eprint, S: Display + Drop, R: Display + Drop>(
    errors: &E,
    device: &str,
    call: &str,
    subject: S,
    reason: R,
) {
    let _ = eprintln!(errors; "desk: {device}: {call} {subject}: {reason}");
}
