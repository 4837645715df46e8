ghost use Rattle.std.specs.Prelude.{◌≡◌, ◌++◌, ◌<◌, OnOk, unsigned_abs};
ghost use Rattle.rel_value.specs.Spellings.{clock, days_text, interval_text, two};

use itoa::{Buffer, Integer};
use rel_lexer::Text;
use std::alloc::AllocError;

/// Appends a number in decimal digits.
pub(crate) fn write_number<I: Integer>(number: I, out: &mut Text) -> Result<(), AllocError>
    ensures { OnOk result (out.new ≡ out.old ++ I.text number) }
{
    out.push(Buffer::new().format(number))
}

/// Appends a number below 100 in two digits.
pub(crate) fn write_two(number: u64, out: &mut Text) -> Result<(), AllocError>
    requires { number < 100 }
    ensures { OnOk result (out.new ≡ out.old ++ two number) }
{
    if number < 10 {
        out.push("0")?;
    }
    write_number(number, out)
}

/// Appends HH:MM:SS.
pub(crate) fn write_clock(seconds: u64, out: &mut Text) -> Result<(), AllocError>
    requires { seconds < 86400 }
    ensures { OnOk result (out.new ≡ out.old ++ clock seconds) }
{
    write_two(seconds / 3600, out)?;
    out.push(":")?;
    write_two(seconds / 60 % 60, out)?;
    out.push(":")?;
    write_two(seconds % 60, out)
}

fn write_days(days: u64, out: &mut Text) -> Result<(), AllocError>
    ensures { OnOk result (out.new ≡ out.old ++ days_text days) }
{
    if days == 0 {
        return Ok(());
    }
    if days == 1 {
        return out.push("1 day, ");
    }
    write_number(days, out)?;
    out.push(" days, ")
}

/// Appends HH:MM:SS, before it the days where there are any, and before all a `-` below 0.
pub(crate) fn write_interval(seconds: i64, out: &mut Text) -> Result<(), AllocError>
    ensures { OnOk result (out.new ≡ out.old ++ interval_text seconds) }
{
    if seconds < 0 {
        out.push("-")?;
    }
    let size = seconds.unsigned_abs();
    write_days(size / 86400, out)?;
    write_clock(size % 86400, out)
}
