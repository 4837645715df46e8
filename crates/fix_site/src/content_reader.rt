ghost use Rattle.std.specs.Prelude.{◌<◌, ◌+◌, ℕ, ◌++◌, IfOk, option_copied};
ghost use Rattle.line_forms.specs.Contents as held;
ghost use Rattle.line_forms.specs.Fields.{field_text};
ghost use Rattle.line_forms.specs.Names.{IsRest};
ghost use Rattle.line_forms.specs.Readers.{ReadsPart, TakesOne, TakesAll};
ghost use Rattle.line_forms.specs.Numbers.{IsId};
ghost use Rattle.fix_site.specs.Contents.{IsSuccess, relevance_line, success_line, component_line, fixlet_rest, baseline_rest};
ghost use Rattle.fix_site.specs.Readings.{Anywhere, FitsScript, FitsRoom, IsFixletOf, IsBaselineOf, IsComponent};

use crate::baseline::Baseline;
use crate::blocks_so_far::BlocksSoFar;
use crate::fixlet::{Fixlet, Success};
use crate::ids::Ids;
use crate::texts::Texts;
use line_forms::{Lines, read_content, read_id, read_rest};
use rel_lexer::Text;
use std::alloc::{AllocError, Global};

/// The most lines of a script.
const MOST_SCRIPT_LINES: usize = 10_000;

/// The most bytes of a script, an LF counted for each line.
const LONGEST_SCRIPT: usize = 262_144;

/// Takes the line of this word and a rest, if it is ahead.
pub(crate) fn take_rest<'a>(word: &[u8], lines: &mut Lines<'a>) -> Option<&'a str>
    ensures { TakesOne IsRest (λ rest. field_text word.now ++ rest) lines.old lines.new (option_copied result) }
{
    let Some(field) = lines.rest_ahead(word) else {
        return None;
    };
    let Some(rest) = read_rest(field) else {
        return None;
    };
    lines.skip_line();
    Some(rest)
}

/// Takes the lines of a fixlet behind the first.
pub(crate) fn take_fixlet(
    alloc: Global,
    id: u64,
    lines: &mut Lines<'_>,
) -> Result<Option<Fixlet>, AllocError>
    requires { IsId id }
    ensures { IfOk result (λ fixlet. ReadsPart (IsFixletOf id) fixlet_rest lines.old lines.new fixlet) }
{
    let Some(title) = take_rest(b"title", lines) else {
        return Ok(None);
    };
    let relevance = take_relevance(alloc, lines)?;
    let Some(success) = take_success(alloc, lines)? else {
        return Ok(None);
    };
    let script = take_script(alloc, lines)?;
    if !lines.take_exactly(b"end") {
        return Ok(None);
    }
    Ok(Some(Fixlet {
        id,
        title: Text::from_str(alloc, title)?,
        relevance,
        success,
        script,
    }))
}

/// Takes the lines of a baseline behind the first. Its components are fixlets among these blocks.
pub(crate) fn take_baseline(
    alloc: Global,
    blocks: &BlocksSoFar,
    id: u64,
    lines: &mut Lines<'_>,
) -> Result<Option<Baseline>, AllocError>
    requires id { IsId id }
    requires some { (component : ℕ) × IsComponent blocks.now component }
    ensures { IfOk result (λ baseline.
        ReadsPart (IsBaselineOf blocks.now id) baseline_rest lines.old lines.new baseline) }
{
    let Some(title) = take_rest(b"title", lines) else {
        return Ok(None);
    };
    let relevance = take_relevance(alloc, lines)?;
    let components = take_components(alloc, blocks, lines)?;
    if components.as_slice().is_empty() {
        return Ok(None);
    }
    if !lines.take_exactly(b"end") {
        return Ok(None);
    }
    Ok(Some(Baseline {
        id,
        title: Text::from_str(alloc, title)?,
        relevance,
        components,
    }))
}

/// Takes the lines of questions, as far as they go.
fn take_relevance(alloc: Global, lines: &mut Lines<'_>) -> Result<Texts, AllocError>
    ensures { IfOk result (λ questions.
        TakesAll (Anywhere IsRest) relevance_line lines.old lines.new questions) }
{
    let mut questions = Vec::new(alloc);
    while let Some(question) = take_rest(b"relevance", lines) {
        questions.push(Text::from_str(alloc, question)?)?;
    }
    Ok(Texts::from_vec(questions))
}

/// Takes the line of the success, if it is ahead.
fn take_success(alloc: Global, lines: &mut Lines<'_>) -> Result<Option<Success>, AllocError>
    ensures { IfOk result (λ success. TakesOne IsSuccess success_line lines.old lines.new success) }
{
    if lines.take_exactly(b"success lines") {
        return Ok(Some(Success::Lines));
    }
    if lines.take_exactly(b"success relevance") {
        return Ok(Some(Success::Relevance));
    }
    let Some(question) = take_rest(b"success clause", lines) else {
        return Ok(None);
    };
    Ok(Some(Success::Clause(Text::from_str(alloc, question)?)))
}

/// Takes the lines of a script, as far as they go and there is room for them.
fn take_script(alloc: Global, lines: &mut Lines<'_>) -> Result<Texts, AllocError>
    ensures { IfOk result (λ script. TakesAll FitsScript held.content_line lines.old lines.new script) }
{
    let mut script = Vec::new(alloc);
    let mut room = LONGEST_SCRIPT;
    while let Some(line) = take_script_line(script.len(), room, lines) {
        room -= line.len() + 1;
        script.push(Text::from_str(alloc, line)?)?;
    }
    Ok(Texts::from_vec(script))
}

/// Takes a line of a script, if one is ahead that has room behind so many lines. `room` is what they leave of the bytes.
fn take_script_line<'a>(count: usize, room: usize, lines: &mut Lines<'a>) -> Option<&'a str>
    ensures { TakesOne (FitsRoom count room) held.content_line lines.old lines.new (option_copied result) }
{
    let line = read_content(lines.line_ahead()?)?;
    if count >= MOST_SCRIPT_LINES || line.len() >= room {
        return None;
    }
    lines.skip_line();
    Some(line)
}

/// Takes the lines of components, as far as they go.
fn take_components(
    alloc: Global,
    blocks: &BlocksSoFar,
    lines: &mut Lines<'_>,
) -> Result<Ids, AllocError>
    ensures { IfOk result (λ components.
        TakesAll (Anywhere (IsComponent blocks.now)) component_line lines.old lines.new components) }
{
    let mut components = Vec::new(alloc);
    while let Some(component) = take_component(blocks, lines) {
        components.push(component)?;
    }
    Ok(Ids::from_vec(components))
}

fn take_component(blocks: &BlocksSoFar, lines: &mut Lines<'_>) -> Option<u64>
    ensures { TakesOne (IsComponent blocks.now) component_line lines.old lines.new result }
{
    let id = read_id(lines.rest_ahead(b"component")?)?;
    if !blocks.has_fixlet(id) {
        return None;
    }
    lines.skip_line();
    Some(id)
}
