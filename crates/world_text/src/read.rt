ghost use Rattle.std.specs.Prelude.{option_copied};
ghost use Rattle.world_text.specs.Drafts.{IsSoundPending};
ghost use Rattle.world_text.specs.Texts.{ReadsWorld};
ghost use Rattle.world_text.specs.Readings.{IsRowAhead, ReadsLines, ReadsBody, ReadsRows};

use crate::draft::Draft;
use crate::error::WorldError;
use crate::fault::Fault;
use crate::head::read_head;
use bf_world::World;
use line_forms::Lines;
use rel_lexer::Text;
use std::alloc::Global;

/// Reads a world text, whose last line is `end`. A text that describes no machine is answered by its first bad line.
pub fn read_world(alloc: Global, text: &[u8]) -> Result<World, WorldError>
    ensures { ReadsWorld text.now result }
{
    let mut lines = Lines::new(text);
    let world = match read_lines(alloc, &mut lines) {
        Ok(world) => world,
        Err(Fault::Bad) => return Err(WorldError::BadLine(lines.number())),
        Err(Fault::Memory) => return Err(WorldError::Memory),
    };
    if !lines.is_over() {
        return Err(WorldError::BadLine(lines.number()));
    }
    Ok(world)
}

/// Takes the lines of a world, which others may follow. Where those ahead aren't one, the first bad line is ahead afterwards.
fn read_lines(alloc: Global, lines: &mut Lines<'_>) -> Result<World, Fault>
    ensures { ReadsLines lines.old lines.new result }
{
    let Some(head) = read_head(lines) else {
        return Err(Fault::Bad);
    };
    let name = Text::from_str(alloc, head.name)?;
    let system = Text::from_str(alloc, head.system)?;
    let version = Text::from_str(alloc, head.version)?;
    let world = World::new(alloc, name, system, version, head.offset, head.moment);
    let mut draft = Draft::just(world);
    match read_body(alloc, &mut draft, lines) {
        Ok(()) => Ok(draft.world),
        Err(fault) => Err(fault),
    }
}

/// Adds the lines behind a head to its world, and takes `end`.
fn read_body(alloc: Global, draft: &mut Draft, lines: &mut Lines<'_>) -> Result<(), Fault>
    requires { IsSoundPending draft.old.pending }
    ensures { ReadsBody draft.old lines.old lines.new draft.new result }
{
    read_rows(alloc, draft, lines)?;
    if !lines.take_exactly(b"end") {
        return Err(Fault::Bad);
    }
    draft.settle()?;
    Ok(())
}

/// Adds the lines before `end`, and stops at the first bad one.
fn read_rows(alloc: Global, draft: &mut Draft, lines: &mut Lines<'_>) -> Result<(), Fault>
    requires { IsSoundPending draft.old.pending }
    ensures { ReadsRows draft.old lines.old lines.new draft.new result }
{
    while let Some(line) = row_ahead(lines) {
        draft.add_line(alloc, line)?;
        lines.skip_line();
    }
    Ok(())
}

/// The line ahead, if there is one other than `end`.
fn row_ahead<'a>(lines: &Lines<'a>) -> Option<&'a [u8]>
    ensures { IsRowAhead lines.now (option_copied result) }
{
    let line = lines.line_ahead()?;
    if line == b"end".as_slice() {
        return None;
    }
    Some(line)
}
