ghost use Rattle.std.specs.Prelude.{◌≡◌, ◌++◌, OnOk};
ghost use Rattle.line_forms.specs.FieldLists.{line_of};
ghost use Rattle.line_forms.specs.Lines.{lines_text, ended_line};
ghost use Rattle.fix_site.specs.RuleLines.{rules_lines, client_lines, moment_field, hours_line, day_digit, retries_line, reapply_line, days_line};
ghost use Rattle.fix_site.specs.Readings.{counted_fields};

use act_rules::{Hours, Reapply, Rules};
use desk_base::Bytes;
use line_forms::{write_number, write_signed_number};
use std::alloc::AllocError;

/// Appends the lines of the rules.
pub(crate) fn write_rules(rules: &Rules, out: &mut Bytes) -> Result<(), AllocError>
    ensures { OnOk result (out.new ≡ out.old ++ lines_text (rules_lines rules.now)) }
{
    write_moment_line(b"start ", rules.start, out)?;
    write_moment_line(b"until ", rules.until, out)?;
    out.extend(client_bytes(rules.client))?;
    write_hours(rules.hours, out)?;
    write_days(&rules.days, out)?;
    write_retries(rules.retries, rules.wait, out)?;
    write_reapply(rules.reapply, out)
}

/// Appends a line: this word, which ends with a space, and a moment or `none`.
fn write_moment_line(word: &[u8], moment: Option<i64>, out: &mut Bytes) -> Result<(), AllocError>
    ensures { OnOk result (out.new ≡ out.old ++ ended_line (word.now ++ moment_field moment)) }
{
    out.extend(word)?;
    write_moment(moment, out)?;
    out.push(b'\n')
}

fn client_bytes(client: bool) -> &'static [u8]
    ensures { result.now ≡ lines_text (client_lines client) }
{
    if client { b"time client\n" } else { b"" }
}

/// Appends a moment, or `none`.
fn write_moment(moment: Option<i64>, out: &mut Bytes) -> Result<(), AllocError>
    ensures { OnOk result (out.new ≡ out.old ++ moment_field moment) }
{
    match moment {
        None => out.extend(b"none"),
        Some(moment) => write_signed_number(moment, out),
    }
}

fn write_hours(hours: Option<Hours>, out: &mut Bytes) -> Result<(), AllocError>
    ensures { OnOk result (out.new ≡ out.old ++ ended_line (hours_line hours)) }
{
    let Some(hours) = hours else {
        return out.extend(b"hours none\n");
    };
    out.extend(b"hours ")?;
    write_number(u64::from(hours.from), out)?;
    out.push(b' ')?;
    write_number(u64::from(hours.to), out)?;
    out.push(b'\n')
}

fn write_days(days: &[bool; 7], out: &mut Bytes) -> Result<(), AllocError>
    ensures { OnOk result (out.new ≡ out.old ++ ended_line (days_line days.now)) }
{
    out.extend(b"days ")?;
    for day in days {
        out.push(day_digit(*day))?;
    }
    out.push(b'\n')
}

fn day_digit(day: bool) -> u8
    ensures { result ≡ day_digit day }
{
    if day { b'1' } else { b'0' }
}

fn write_retries(count: u32, wait: i64, out: &mut Bytes) -> Result<(), AllocError>
    ensures { OnOk result (out.new ≡ out.old ++ ended_line (retries_line count wait)) }
{
    out.extend(b"retries ")?;
    write_number(u64::from(count), out)?;
    out.push(b' ')?;
    write_signed_number(wait, out)?;
    out.push(b'\n')
}

fn write_reapply(reapply: Reapply, out: &mut Bytes) -> Result<(), AllocError>
    ensures { OnOk result (out.new ≡ out.old ++ ended_line (reapply_line reapply)) }
{
    match reapply {
        Reapply::Never => out.extend(b"reapply never\n"),
        Reapply::Again { limit, wait } => write_again(b"reapply again ", limit, wait, out),
        Reapply::While { limit, wait } => write_again(b"reapply while ", limit, wait, out),
    }
}

/// Appends the words of a reapplication, its limit and its wait.
fn write_again(words: &[u8], limit: u32, wait: i64, out: &mut Bytes) -> Result<(), AllocError>
    ensures { OnOk result (out.new ≡ out.old ++ ended_line (words.now ++ line_of (counted_fields limit wait))) }
{
    out.extend(words)?;
    write_number(u64::from(limit), out)?;
    out.push(b' ')?;
    write_signed_number(wait, out)?;
    out.push(b'\n')
}
