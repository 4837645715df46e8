ghost use Rattle.std.specs.Prelude.{◌≡◌, ℕ, List, ◌∷◌, [], IfOk, MatchOption, option_copied};
ghost use Rattle.line_forms.specs.Names.{IsName};
ghost use Rattle.desk_base.specs.Moments.{IsMoment};
ghost use Rattle.line_forms.specs.Readers.{ReadsPart, TakesOne, TakesAll, Passes, IsAny};
ghost use Rattle.line_forms.specs.Numbers.{IsId};
ghost use Rattle.fix_site.specs.Actions.{IsAction, action_lines, action_line, action_rest, issued_line, content_line, computer_line};
ghost use Rattle.fix_site.specs.Answers.{ReadsAction};
ghost use Rattle.fix_site.specs.Readings.{TakesTarget, Anywhere, IsActionOf, ReadsHead, IsEnd, end_lines, choice_line};

use crate::action::{Action, Target};
use crate::content_reader::take_rest;
use crate::error::SiteError;
use crate::field::{Named, read_named};
use crate::rule_reader::take_rules;
use crate::texts::Texts;
use act_rules::Rules;
use line_forms::{Lines, read_id, read_moment, read_name};
use rel_lexer::Text;
use std::alloc::{AllocError, Global};

/// The most bytes of the text of a site or of an action.
pub(crate) const LONGEST_TEXT: usize = 4_194_304;

/// Reads an action: its lines in their order. A text that isn't an action is answered by its first bad line, one with too
/// many bytes by `TooLong`.
pub fn read_action(alloc: Global, text: &[u8]) -> Result<Action, SiteError>
    ensures { ReadsAction text.now result }
{
    if text.len() > LONGEST_TEXT {
        return Err(SiteError::TooLong);
    }
    let mut lines = Lines::new(text);
    let action = take_whole_action(alloc, &mut lines)?;
    let Some(action) = action else {
        return Err(SiteError::BadLine(lines.number()));
    };
    if !lines.is_over() {
        return Err(SiteError::BadLine(lines.number()));
    }
    Ok(action)
}

/// Takes the lines of an action.
fn take_whole_action(alloc: Global, lines: &mut Lines<'_>) -> Result<Option<Action>, AllocError>
    ensures { IfOk result (λ action. ReadsPart IsAction action_lines lines.old lines.new action) }
{
    let Some(id) = take_action_id(lines) else {
        return Ok(None);
    };
    take_action(alloc, id, lines)
}

fn take_action_id(lines: &mut Lines<'_>) -> Option<u64>
    ensures { TakesOne IsId action_line lines.old lines.new result }
{
    let id = read_id(lines.rest_ahead(b"action")?)?;
    lines.skip_line();
    Some(id)
}

/// The lines of an action between its id and its target.
#[derive(Clone, Copy)]
struct ActionHead<'a> {
    issued: i64,
    content: Named<'a>,
    all_members: bool,
}

/// Takes the lines of an action behind the first.
pub(crate) fn take_action(
    alloc: Global,
    id: u64,
    lines: &mut Lines<'_>,
) -> Result<Option<Action>, AllocError>
    requires { IsId id }
    ensures { IfOk result (λ action. ReadsPart (IsActionOf id) action_rest lines.old lines.new action) }
{
    let Some(head) = take_head(lines) else {
        return Ok(None);
    };
    let Some(target) = take_target(alloc, lines)? else {
        return Ok(None);
    };
    let Some(end) = take_end(lines) else {
        return Ok(None);
    };
    Ok(Some(Action {
        id,
        issued: head.issued,
        site: Text::from_str(alloc, head.content.name)?,
        content: head.content.id,
        all_members: head.all_members,
        target,
        rules: end.rules,
        stopped: end.stopped,
    }))
}

fn take_head<'a>(lines: &mut Lines<'a>) -> Option<ActionHead<'a>>
    ensures { ReadsHead lines.old lines.new result }
{
    let Some(issued) = take_issued(lines) else {
        return None;
    };
    let Some(content) = take_content(lines) else {
        return None;
    };
    let Some(all_members) = take_choice(b"members stop", b"members all", lines) else {
        return None;
    };
    Some(ActionHead {
        issued,
        content,
        all_members,
    })
}

fn take_issued(lines: &mut Lines<'_>) -> Option<i64>
    ensures { TakesOne IsMoment issued_line lines.old lines.new result }
{
    let issued = read_moment(lines.rest_ahead(b"issued")?)?;
    lines.skip_line();
    Some(issued)
}

fn take_content<'a>(lines: &mut Lines<'a>) -> Option<Named<'a>>
    ensures { MatchOption result
        ((lines.new ≡ lines.old) × ((site : List ℕ) (content : ℕ) (more : List (List ℕ)) → IsName site → IsId content
        → ¬ (lines.old.lines ≡ content_line site content ∷ more)))
        (λ n. IsName n.name.now × IsId n.id × Passes lines.old lines.new (content_line n.name.now n.id ∷ [])) }
{
    let content = read_named(lines.rest_ahead(b"content")?)?;
    lines.skip_line();
    Some(content)
}

/// Takes one of two lines, if it is ahead, and whether it was the second.
fn take_choice(first: &[u8], second: &[u8], lines: &mut Lines<'_>) -> Option<bool>
    ensures { TakesOne IsAny (choice_line first.now second.now) lines.old lines.new result }
{
    if lines.take_exactly(first) {
        return Some(false);
    }
    if lines.take_exactly(second) {
        return Some(true);
    }
    None
}

/// Takes the lines of the target.
fn take_target(alloc: Global, lines: &mut Lines<'_>) -> Result<Option<Target>, AllocError>
    ensures { IfOk result (λ target. TakesTarget lines.old lines.new target) }
{
    if lines.take_exactly(b"target all") {
        return Ok(Some(Target::All));
    }
    if let Some(question) = take_rest(b"target where", lines) {
        return Ok(Some(Target::Where(Text::from_str(alloc, question)?)));
    }
    let names = take_computers(alloc, lines)?;
    if names.as_slice().is_empty() {
        return Ok(None);
    }
    Ok(Some(Target::Computers(names)))
}

/// Takes the lines of computers, as far as they go.
fn take_computers(alloc: Global, lines: &mut Lines<'_>) -> Result<Texts, AllocError>
    ensures { IfOk result (λ names. TakesAll (Anywhere IsName) computer_line lines.old lines.new names) }
{
    let mut names = Vec::new(alloc);
    while let Some(name) = take_computer(lines) {
        names.push(Text::from_str(alloc, name)?)?;
    }
    Ok(Texts::from_vec(names))
}

fn take_computer<'a>(lines: &mut Lines<'a>) -> Option<&'a str>
    ensures { TakesOne IsName computer_line lines.old lines.new (option_copied result) }
{
    let Some(field) = lines.rest_ahead(b"target computer") else {
        return None;
    };
    let Some(name) = read_name(field) else {
        return None;
    };
    lines.skip_line();
    Some(name)
}

/// The lines of an action behind its target.
#[derive(Clone, Copy)]
struct ActionEnd {
    rules: Rules,
    stopped: bool,
}

fn take_end(lines: &mut Lines<'_>) -> Option<ActionEnd>
    ensures { ReadsPart IsEnd end_lines lines.old lines.new result }
{
    let Some(rules) = take_rules(lines) else {
        return None;
    };
    let Some(stopped) = take_choice(b"state open", b"state stopped", lines) else {
        return None;
    };
    if !lines.take_exactly(b"end") {
        return None;
    }
    Some(ActionEnd { rules, stopped })
}
