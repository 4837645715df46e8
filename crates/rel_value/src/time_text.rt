ghost use Rattle.std.specs.Prelude.{◌≡◌, ◌++◌, ◌*◌, ◌<◌, OnOk};
ghost use Rattle.desk_base.specs.Moments.{IsMoment};
ghost use Rattle.line_forms.specs.Numbers.{IsOffset};
ghost use Rattle.rel_value.specs.Spellings.{date_text, month_name, offset_text, shown_seconds, time_text, weekday};

use crate::calendar::{CivilDate, date_after};
use crate::spelling::{write_clock, write_two};
use rel_lexer::Text;
use std::alloc::AllocError;

/// The seconds of 1969, from whose beginning seconds are counted here, so that none is below 0.
pub(crate) const SECONDS_OF_1969: i64 = 365 * 86_400;

/// Appends `Www, DD Mmm YYYY HH:MM:SS +HHMM`: a moment as a clock shows it that is so many minutes east of UTC.
pub(crate) fn write_time(moment: i64, offset: i64, out: &mut Text) -> Result<(), AllocError>
    requires moment { IsMoment moment }
    requires offset { IsOffset offset }
    ensures { OnOk result (out.new ≡ out.old ++ time_text moment offset) }
{
    let seconds = seconds_shown(moment, offset);
    let days = seconds / 86_400;
    out.push(weekday(days))?;
    out.push(", ")?;
    write_date(date_after(days as u32), out)?;
    out.push(" ")?;
    write_clock(seconds % 86_400, out)?;
    out.push(" ")?;
    write_offset(offset, out)
}

fn seconds_shown(moment: i64, offset: i64) -> u64
    requires moment { IsMoment moment }
    requires offset { IsOffset offset }
    ensures value { result ≡ shown_seconds moment offset }
    ensures bound { result < 2_000_000 * 86400 }
{
    (moment + 60 * offset + SECONDS_OF_1969) as u64
}

/// The name of the day so many days after a Wednesday.
fn weekday(days: u64) -> &'static str
    ensures { result.now ≡ weekday days }
{
    match days % 7 {
        0 => "Wed",
        1 => "Thu",
        2 => "Fri",
        3 => "Sat",
        4 => "Sun",
        5 => "Mon",
        _ => "Tue",
    }
}

/// The name of a month from 1 to 12.
pub(crate) fn month_name(month: u8) -> &'static str
    ensures { result.now ≡ month_name month }
{
    match month {
        1 => "Jan",
        2 => "Feb",
        3 => "Mar",
        4 => "Apr",
        5 => "May",
        6 => "Jun",
        7 => "Jul",
        8 => "Aug",
        9 => "Sep",
        10 => "Oct",
        11 => "Nov",
        _ => "Dec",
    }
}

/// Appends `DD Mmm YYYY`.
fn write_date(date: CivilDate, out: &mut Text) -> Result<(), AllocError>
    requires day { date.day < 100 }
    requires year { date.year < 10000 }
    ensures { OnOk result (out.new ≡ out.old ++ date_text date) }
{
    write_two(u64::from(date.day), out)?;
    out.push(" ")?;
    out.push(month_name(date.month))?;
    out.push(" ")?;
    write_two(u64::from(date.year) / 100, out)?;
    write_two(u64::from(date.year) % 100, out)
}

/// Appends `+HHMM`, or `-HHMM` west of UTC.
fn write_offset(offset: i64, out: &mut Text) -> Result<(), AllocError>
    requires { IsOffset offset }
    ensures { OnOk result (out.new ≡ out.old ++ offset_text offset) }
{
    out.push(if offset < 0 { "-" } else { "+" })?;
    let size = offset.unsigned_abs();
    write_two(size / 60, out)?;
    write_two(size % 60, out)
}
