ghost use Rattle.std.specs.Prelude.{◌≡◌, None, IfOk};
ghost use Rattle.desk_base.specs.Moments.{IsMoment};

use desk_base::{Clock, LAST_MOMENT, Told};
use edge_faults::Faults;
use std::io;
use std::io::Eprint;
use std::time::{self, SystemTime, UNIX_EPOCH};

/// A clock of std as a clock.
#[derive(Drop)]
pub struct SystemClock<C: time::Clock, E: Eprint> {
    inner: C,
    faults: Faults<E>,
}

impl<C: time::Clock, E: Eprint> SystemClock<C, E> {
    /// A clock without faults so far. Its faults are told to `errors`.
    pub fn new(inner: C, errors: E) -> SystemClock<C, E>
        ensures { result.faults ≡ 0 }
    {
        SystemClock {
            inner,
            faults: Faults::none("clock", errors),
        }
    }
}

impl<C: time::Clock, E: Eprint> Clock for SystemClock<C, E> {
    ghost told = { λ c. record { given = None; faults = c.faults } };

    fn now(&mut self) -> Told {
        match moment_of(&self.inner) {
            Ok(moment) => Told::Moment(moment),
            Err(error) => {
                self.faults.add("read", "the time", error);
                Told::Failed
            }
        }
    }
}

/// The seconds since 1970 that a clock reads, or the last moment where that is before them.
fn moment_of<C: time::Clock>(clock: &C) -> io::Result<i64>
    ensures { IfOk result IsMoment }
{
    let Ok(since) = SystemTime::now(clock)?.duration_since(UNIX_EPOCH) else {
        return Ok(0);
    };
    Ok(nearest_moment(i64::try_from(since.as_secs()).unwrap_or(LAST_MOMENT)))
}

/// The moment that is nearest to a number of seconds since 1970.
pub(crate) fn nearest_moment(seconds: i64) -> i64
    ensures { IsMoment result }
{
    seconds.max(0).min(LAST_MOMENT)
}
