ghost use Rattle.desk_base.specs.Views.{ClockView};
ghost use Rattle.desk_base.specs.Moments.{AsksMoment};

/// The last moment that a clock gives and a text spells, in seconds since 1970-01-01 00:00:00 UTC (2^37).
pub const LAST_MOMENT: i64 = 137_438_953_472;

/// What a clock answers.
#[derive(Clone, Copy)]
pub enum Told {
    /// Seconds since 1970-01-01 00:00:00 UTC, from 0 to 137,438,953,472 (2^37).
    Moment(i64),
    /// No moment was given, and the count of faults went up.
    Failed,
}

/// Where moments come from. They may go back.
pub trait Clock {
    /// What it tells of itself.
    ghost told: { Self → ClockView };

    /// The moment now.
    fn now(&mut self) -> Told
        ensures { AsksMoment (told self.old) result (told self.new) };
}
