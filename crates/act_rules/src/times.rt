ghost use Rattle.std.specs.Prelude.{◌≡◌, ◌+◌, ◌≤◌, ◌<◌, ◌^◌, ℤ, ◌≤ℤ◌, ◌<ℤ◌, IsTrue, ◌↔◌, IfSome};
ghost use Rattle.desk_base.specs.Moments.{IsMoment};
ghost use Rattle.line_forms.specs.Numbers.{IsOffset};
ghost use Rattle.act_rules.specs.Windows.{IsInWindow, IsInHours, AreOpen, IsAllowed, local_time, day_of, minute_of, mark_of};
ghost use Rattle.act_rules.specs.Steps.{IsWithin};

use crate::rule::{Hours, Rules};

/// The seconds of a day.
const DAY: i64 = 86_400;

/// The days from a Monday to day 0, which is a Thursday.
const DAY_0: i64 = 3;

/// Whether an action under these rules may begin. The moment is in seconds since 1970-01-01 00:00:00 UTC, from 0 to 2^37,
/// and the offset in minutes east of UTC, from -840 to 840. Hours and days are in local time, `start` and `until` in that
/// of the rules.
pub fn window(rules: &Rules, moment: i64, offset: i64) -> bool
    requires moment { IsMoment moment }
    requires offset { IsOffset offset }
    ensures { IsTrue result ↔ IsInWindow rules.now moment offset }
{
    let local = local_time(moment, offset);
    let mark = rules.mark_of(moment, local);
    if !rules.has_started(mark) {
        return false;
    }
    if !rules.goes_on(mark) {
        return false;
    }
    rules.has_hours(local)
}

fn local_time(moment: i64, offset: i64) -> i64
    requires moment { IsMoment moment }
    requires offset { IsOffset offset }
    ensures value { result ≡ local_time moment offset }
    ensures near { IsWithin (2 ^ 40) result }
{
    moment + 60 * offset
}

impl Rules {
    /// The time that is compared with the start and the end.
    fn mark_of(&self, moment: i64, local: i64) -> i64
        ensures { result ≡ mark_of self.now moment local }
    {
        if self.client { local } else { moment }
    }

    fn has_started(&self, mark: i64) -> bool
        ensures { IsTrue result ↔ IfSome self.now.start (λ start. start ≤ℤ mark) }
    {
        match self.start {
            None => true,
            Some(start) => start <= mark,
        }
    }

    fn goes_on(&self, mark: i64) -> bool
        ensures { IsTrue result ↔ IfSome self.now.until (λ until. mark <ℤ until) }
    {
        match self.until {
            None => true,
            Some(until) => mark < until,
        }
    }

    fn has_hours(&self, local: i64) -> bool
        requires { IsWithin (2 ^ 40) local }
        ensures { IsTrue result ↔ IsInHours self.now.hours self.now.days (day_of local) (minute_of local) }
    {
        let day = day_of(local);
        let minute = minute_of(local);
        match self.hours {
            None => self.is_allowed(day),
            Some(hours) => self.are_open(hours, day, minute),
        }
    }

    fn are_open(&self, hours: Hours, day: i64, minute: u32) -> bool
        requires { IsWithin (2 ^ 40) day }
        ensures { IsTrue result ↔ AreOpen hours self.now.days day minute }
    {
        if hours.from < hours.to {
            return hours.from <= minute && minute < hours.to && self.is_allowed(day);
        }
        if hours.to < hours.from {
            return hours.from <= minute && self.is_allowed(day)
                || minute < hours.to && self.is_allowed(day - 1);
        }
        false
    }

    fn is_allowed(&self, day: i64) -> bool
        requires { IsWithin (2 ^ 41) day }
        ensures { IsTrue result ↔ IsAllowed self.now.days day }
    {
        self.days[(day + DAY_0).rem_euclid(7) as usize]
    }
}

fn day_of(local: i64) -> i64
    requires { IsWithin (2 ^ 40) local }
    ensures value { result ≡ day_of local }
    ensures near { IsWithin (2 ^ 40) result }
{
    local.div_euclid(DAY)
}

fn minute_of(local: i64) -> u32
    ensures { result ≡ minute_of local }
{
    local.rem_euclid(DAY) as u32 / 60
}
