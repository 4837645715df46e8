ghost use Rattle.std.specs.Prelude.{MatchOption, List, ℕ, option_copied};
ghost use Rattle.desk_base.specs.Moments.{IsMoment};
ghost use Rattle.line_forms.specs.Names.{IsName};
ghost use Rattle.line_forms.specs.Numbers.{IsOffset};
ghost use Rattle.world_text.specs.Texts.{IsSystemLine};
ghost use Rattle.line_forms.specs.Readers.{Spells, TakesOne};
ghost use Rattle.world_text.specs.Readings.{TakesSystem, ReadsHead, name_line, offset_line, moment_line};

use crate::fields::{Versioned, read_versioned};
use line_forms::{Lines, after_word, read_moment, read_name, read_offset};

/// What the head of a world says.
#[derive(Clone, Copy)]
pub(crate) struct HeadText<'a> {
    pub(crate) name: &'a str,
    pub(crate) version: &'a str,
    pub(crate) system: &'a str,
    pub(crate) offset: i64,
    pub(crate) moment: i64,
}

/// Takes the five lines of a head. Where they aren't ahead, the first bad line is ahead afterwards.
pub(crate) fn read_head<'a>(lines: &mut Lines<'a>) -> Option<HeadText<'a>>
    ensures { ReadsHead lines.old lines.new result }
{
    if !lines.take_exactly(b"world") {
        return None;
    }
    let Some(name) = take_name(lines) else {
        return None;
    };
    let Some(system) = take_system(lines) else {
        return None;
    };
    let Some(offset) = take_offset(lines) else {
        return None;
    };
    let Some(moment) = take_moment(lines) else {
        return None;
    };
    Some(HeadText {
        name,
        version: system.version,
        system: system.name,
        offset,
        moment,
    })
}

pub(crate) fn read_name_line(line: &[u8]) -> Option<&str>
    ensures { Spells IsName name_line line.now (option_copied result) }
{
    read_name(after_word(line, b"name")?)
}

fn read_system_line(line: &[u8]) -> Option<Versioned<'_>>
    ensures { MatchOption result
        ((version system : List ℕ) → ¬ IsSystemLine line.now version system)
        (λ s. IsSystemLine line.now s.version.now s.name.now) }
{
    let Some(rest) = after_word(line, b"system") else {
        return None;
    };
    let Some(system) = read_versioned(rest) else {
        return None;
    };
    Some(system)
}

fn read_offset_line(line: &[u8]) -> Option<i64>
    ensures { Spells IsOffset offset_line line.now result }
{
    read_offset(after_word(line, b"offset")?)
}

fn read_moment_line(line: &[u8]) -> Option<i64>
    ensures { Spells IsMoment moment_line line.now result }
{
    read_moment(after_word(line, b"moment")?)
}

/// Takes the line of the name, if it is ahead.
fn take_name<'a>(lines: &mut Lines<'a>) -> Option<&'a str>
    ensures { TakesOne IsName name_line lines.old lines.new (option_copied result) }
{
    let name = read_name_line(lines.line_ahead()?)?;
    lines.skip_line();
    Some(name)
}

/// Takes the line of the operating system, if it is ahead.
fn take_system<'a>(lines: &mut Lines<'a>) -> Option<Versioned<'a>>
    ensures { TakesSystem lines.old lines.new result }
{
    let Some(line) = lines.line_ahead() else {
        return None;
    };
    let Some(system) = read_system_line(line) else {
        return None;
    };
    lines.skip_line();
    Some(system)
}

/// Takes the line of the offset, if it is ahead.
fn take_offset(lines: &mut Lines<'_>) -> Option<i64>
    ensures { TakesOne IsOffset offset_line lines.old lines.new result }
{
    let offset = read_offset_line(lines.line_ahead()?)?;
    lines.skip_line();
    Some(offset)
}

/// Takes the line of the moment, if it is ahead.
fn take_moment(lines: &mut Lines<'_>) -> Option<i64>
    ensures { TakesOne IsMoment moment_line lines.old lines.new result }
{
    let moment = read_moment_line(lines.line_ahead()?)?;
    lines.skip_line();
    Some(moment)
}
