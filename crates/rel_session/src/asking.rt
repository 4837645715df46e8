ghost use Rattle.std.specs.Prelude.{◌≡◌, ◌∷◌, [], IsErrOf, IfOk, MatchResult};
ghost use Rattle.desk_base.specs.Counts.{CountsFaults};
ghost use Rattle.desk_base.specs.Moments.{IsMoment};
ghost use Rattle.rel_session.specs.Devices.{Dates, IsAsking};

use crate::Halt;
use desk_base::{Clock, Told};

/// Where and when questions are asked.
#[derive(Clone, Copy)]
pub struct Asking {
    /// Minutes east of UTC, from -840 to 840.
    pub offset: i64,
    /// The moment of each question, in seconds since 1970-01-01 00:00:00 UTC, from 0 to 137,438,953,472 (2^37). With none the clock
    /// is asked for one at each question.
    pub moment: Option<i64>,
}

impl Asking {
    /// The moment of the next question.
    pub(crate) fn next_moment<C: Clock>(self, clock: &mut C) -> Result<i64, Halt>
        requires { IsAsking self }
        ensures dated { MatchResult result
            (λ moment. Dates self.moment (C.told clock.old).given (C.told clock.new).given (moment ∷ []))
            (λ _. Dates self.moment (C.told clock.old).given (C.told clock.new).given []) }
        ensures moment { IfOk result IsMoment }
        ensures counts { CountsFaults (IsErrOf result Halt.Clock) (C.told clock.old).faults (C.told clock.new).faults }
        ensures only { MatchResult result (λ _. Unit {0}) (λ halt. halt ≡ Halt.Clock) }
    {
        if let Some(moment) = self.moment {
            return Ok(moment);
        }
        match clock.now() {
            Told::Moment(moment) => Ok(moment),
            Told::Failed => Err(Halt::Clock),
        }
    }
}
