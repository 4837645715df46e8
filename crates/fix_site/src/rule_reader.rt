ghost use Rattle.std.specs.Prelude.{◌≡◌, IsTrue, ◌↔◌, Bool, Some, ℕ, ℤ, List, length, map, IfSome, MatchOption, ◌++◌, ◌∷◌, []};
ghost use Rattle.line_forms.specs.Fields.{field_text};
ghost use Rattle.line_forms.specs.FieldLists.{line_of};
ghost use Rattle.line_forms.specs.Readers.{Spells, TakesOne, ReadsPart, Passes};
ghost use Rattle.fix_site.specs.RuleLines.{IsRules, IsHours, IsCount, IsWait, IsReapply, rules_lines, moment_field, hours_fields, hours_line, day_digit, days_line, retries_line, reapply_fields, reapply_line};
ghost use Rattle.fix_site.specs.Readings.{IsMaybeMoment};

use crate::field::{Counted, read_counted, read_pair};
use act_rules::{Hours, Reapply, Rules};
use line_forms::{Lines, after_word, read_moment, read_number};

/// The last minute of a day at which hours can begin.
const LAST_FROM: u64 = 1439;

/// The end of a day, in minutes.
const LAST_TO: u64 = 1440;

/// Takes the lines of the rules. Where they don't stand there, the first bad line is ahead afterwards.
pub(crate) fn take_rules(lines: &mut Lines<'_>) -> Option<Rules>
    ensures { ReadsPart IsRules rules_lines lines.old lines.new result }
{
    let Some(start) = take_moment(b"start", lines) else {
        return None;
    };
    let Some(until) = take_moment(b"until", lines) else {
        return None;
    };
    let client = lines.take_exactly(b"time client");
    let Some(hours) = take_hours(lines) else {
        return None;
    };
    let Some(days) = take_days(lines) else {
        return None;
    };
    let Some(retries) = take_retries(lines) else {
        return None;
    };
    let Some(reapply) = take_reapply(lines) else {
        return None;
    };
    Some(Rules {
        start,
        until,
        client,
        hours,
        days,
        retries: retries.count,
        wait: retries.wait,
        reapply,
    })
}

/// Takes the line of this word and a moment or `none`, if it is ahead.
fn take_moment(word: &[u8], lines: &mut Lines<'_>) -> Option<Option<i64>>
    ensures { TakesOne IsMaybeMoment (λ moment. field_text word.now ++ moment_field moment) lines.old lines.new result }
{
    let Some(field) = lines.rest_ahead(word) else {
        return None;
    };
    let Some(moment) = read_moment_field(field) else {
        return None;
    };
    lines.skip_line();
    Some(moment)
}

fn read_moment_field(text: &[u8]) -> Option<Option<i64>>
    ensures { Spells IsMaybeMoment moment_field text.now result }
{
    if is_word(text, b"none") {
        return Some(None);
    }
    let moment = read_moment(text)?;
    Some(Some(moment))
}

fn take_hours(lines: &mut Lines<'_>) -> Option<Option<Hours>>
    ensures { TakesOne (λ hours. IfSome hours IsHours) hours_line lines.old lines.new result }
{
    let hours = read_hours_field(lines.rest_ahead(b"hours")?)?;
    lines.skip_line();
    Some(hours)
}

fn read_hours_field(text: &[u8]) -> Option<Option<Hours>>
    ensures { Spells (λ hours. IfSome hours IsHours) (λ hours. line_of (hours_fields hours)) text.now result }
{
    if is_word(text, b"none") {
        return Some(None);
    }
    let hours = read_hours(text)?;
    Some(Some(hours))
}

/// Reads two minutes of a day that differ.
fn read_hours(text: &[u8]) -> Option<Hours>
    ensures { Spells IsHours (λ hours. line_of (hours_fields (Some hours))) text.now result }
{
    let Some(pair) = read_pair(text) else {
        return None;
    };
    let Some(from) = read_number(pair.first, LAST_FROM) else {
        return None;
    };
    let Some(to) = read_number(pair.second, LAST_TO) else {
        return None;
    };
    if to == 0 || from == to {
        return None;
    }
    Some(Hours {
        from: from as u32,
        to: to as u32,
    })
}

fn take_days(lines: &mut Lines<'_>) -> Option<[bool; 7]>
    ensures { TakesOne (λ days. length days ≡ 7) days_line lines.old lines.new result }
{
    let days = read_days(lines.rest_ahead(b"days")?)?;
    lines.skip_line();
    Some(days)
}

/// Reads seven digits, `1` or `0`.
fn read_days(text: &[u8]) -> Option<[bool; 7]>
    ensures { Spells (λ days. length days ≡ 7) (map day_digit) text.now result }
{
    let &[a, b, c, d, e, f, g] = text else {
        return None;
    };
    let days = [
        read_day(a)?,
        read_day(b)?,
        read_day(c)?,
        read_day(d)?,
        read_day(e)?,
        read_day(f)?,
        read_day(g)?,
    ];
    Some(days)
}

fn read_day(digit: u8) -> Option<bool>
    ensures { MatchOption result ((day : Bool) → ¬ (digit ≡ day_digit day)) (λ day. digit ≡ day_digit day) }
{
    match digit {
        b'1' => Some(true),
        b'0' => Some(false),
        _ => None,
    }
}

fn take_retries(lines: &mut Lines<'_>) -> Option<Counted>
    ensures { MatchOption result
        ((lines.new ≡ lines.old) × ((count : ℕ) (wait : ℤ) (more : List (List ℕ)) → IsCount count → IsWait wait
        → ¬ (lines.old.lines ≡ retries_line count wait ∷ more)))
        (λ c. IsCount c.count × IsWait c.wait × Passes lines.old lines.new (retries_line c.count c.wait ∷ [])) }
{
    let retries = read_counted(lines.rest_ahead(b"retries")?)?;
    lines.skip_line();
    Some(retries)
}

fn take_reapply(lines: &mut Lines<'_>) -> Option<Reapply>
    ensures { TakesOne IsReapply reapply_line lines.old lines.new result }
{
    let reapply = read_reapply(lines.rest_ahead(b"reapply")?)?;
    lines.skip_line();
    Some(reapply)
}

fn read_reapply(text: &[u8]) -> Option<Reapply>
    ensures { Spells IsReapply (λ reapply. line_of (reapply_fields reapply)) text.now result }
{
    if is_word(text, b"never") {
        return Some(Reapply::Never);
    }
    if let Some(rest) = after_word(text, b"again") {
        let Counted { count, wait } = read_counted(rest)?;
        return Some(Reapply::Again { limit: count, wait });
    }
    let Counted { count, wait } = read_counted(after_word(text, b"while")?)?;
    Some(Reapply::While { limit: count, wait })
}

/// Whether a text is this word.
fn is_word(text: &[u8], word: &[u8]) -> bool
    ensures { IsTrue result ↔ (text.now ≡ word.now) }
{
    text == word
}
