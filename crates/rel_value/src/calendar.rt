ghost use Rattle.std.specs.Prelude.{◌≡◌, ℕ, ◌<◌, ◌≤◌, IfSome, Some};
ghost use Rattle.rel_value.specs.Calendar.{date_after};

use jiff::ToSpan;
use jiff::civil::{Date, date};

/// A day of the calendar: months and days count from 1.
#[derive(Clone, Copy)]
pub(crate) struct CivilDate {
    pub year: u16,
    pub month: u8,
    pub day: u8,
}

/// The date so many days after 1 January 1969, before the year 10000.
pub(crate) fn date_after(days: u32) -> CivilDate
    requires { days < 2_000_000 }
    ensures value { result ≡ date_after days }
    ensures year { result.year < 10000 }
    ensures day { result.day ≤ 31 }
{
    let first = date(1969, 1, 1);
    let day = first.checked_add(i64::from(days).days()).unwrap_or(first);
    CivilDate {
        year: day.year() as u16,
        month: day.month() as u8,
        day: day.day() as u8,
    }
}

/// How many days after 1 January 1969 the date is, where there is such a date from then on.
pub(crate) fn days_to(year: u64, month: u64, day: u64) -> Option<u64>
    requires month { month ≤ 12 }
    ensures value { (days : ℕ) → days < 2000000 → date_after days ≡ record { year = year; month = month; day = day }
        → result ≡ Some days }
    ensures bound { IfSome result (λ days. days < 2000000) }
{
    if year > 9999 || day > 31 {
        return None;
    }
    let day = Date::new(year as i16, month as i8, day as i8).ok()?;
    let seconds = day.duration_since(date(1969, 1, 1)).as_secs();
    if seconds < 0 || seconds >= 2_000_000 * 86_400 {
        return None;
    }
    Some(seconds as u64 / 86_400)
}
