ghost use Rattle.std.specs.Prelude.{◌≡◌, ℕ, List, IfOk, MatchOption, option_copied};
ghost use Rattle.line_forms.specs.Names.{IsName};
ghost use Rattle.line_forms.specs.Readers.{IsAny, Spells, TakesAll, TakesOne};
ghost use Rattle.group_text.specs.Groups.{CanFollow, ReadsGroup, group_line, match_line};
ghost use Rattle.group_text.specs.Readings.{AreNamed, SpellsTest, test_of};
ghost use Rattle.group_text.specs.Tests.{IsTest, test_line};

use crate::error::GroupError;
use crate::group::{Group, Tests};
use crate::list::add;
use crate::test::Test;
use line_forms::{Lines, after_word, first_field, read_name, read_rest};
use rel_lexer::Text;
use std::alloc::{AllocError, Global};

/// The most tests of a group.
const MOST_TESTS: usize = 100;

/// Reads a group: the line of its name, the line of how many tests are to hold, a line for each of 1 to 100 tests, and the line `end`. A
/// text that isn't that of a group is answered by its first bad line.
pub fn read_group(alloc: Global, text: &[u8]) -> Result<Group, GroupError>
    ensures { ReadsGroup text.now result }
{
    let mut lines = Lines::new(text);
    let Some(name) = take_name(&mut lines) else {
        return Err(GroupError::BadGroup(lines.number()));
    };
    let Some(any) = take_match(&mut lines) else {
        return Err(GroupError::BadGroup(lines.number()));
    };
    let tests = take_tests(alloc, &mut lines)?;
    if tests.is_empty() {
        return Err(GroupError::BadGroup(lines.number()));
    }
    if !lines.take_exactly(b"end") {
        return Err(GroupError::BadGroup(lines.number()));
    }
    if !lines.is_over() {
        return Err(GroupError::BadGroup(lines.number()));
    }
    Ok(Group {
        name: Text::from_str(alloc, name)?,
        any,
        tests: Tests::from_vec(tests),
    })
}

/// Takes the first line, if it is ahead.
fn take_name<'a>(lines: &mut Lines<'a>) -> Option<&'a str>
    ensures { TakesOne IsName group_line lines.old lines.new (option_copied result) }
{
    let name = read_name(lines.rest_ahead(b"group")?)?;
    lines.skip_line();
    Some(name)
}

/// Takes the line of how many tests are to hold, if it is ahead: whether any of them is enough.
fn take_match(lines: &mut Lines<'_>) -> Option<bool>
    ensures { TakesOne IsAny match_line lines.old lines.new result }
{
    if lines.take_exactly(b"match any") {
        return Some(true);
    }
    if lines.take_exactly(b"match all") {
        return Some(false);
    }
    None
}

/// Takes the lines of tests, as far as they go.
fn take_tests(alloc: Global, lines: &mut Lines<'_>) -> Result<Vec<Test>, AllocError>
    ensures { IfOk result (λ list. TakesAll CanFollow test_line lines.old lines.new list.items) }
{
    let mut tests = Vec::new(alloc);
    while let Some(test) = take_test(alloc, tests.as_slice(), lines)? {
        add(&mut tests, test)?;
    }
    Ok(tests)
}

/// Takes the line of a test that can follow these, if it is ahead.
fn take_test(
    alloc: Global,
    before: &[Test],
    lines: &mut Lines<'_>,
) -> Result<Option<Test>, AllocError>
    ensures { IfOk result (TakesOne (CanFollow before.now) test_line lines.old lines.new) }
{
    if before.len() >= MOST_TESTS {
        return Ok(None);
    }
    let Some(line) = lines.line_ahead() else {
        return Ok(None);
    };
    let Some(test) = read_test(alloc, line)? else {
        return Ok(None);
    };
    lines.skip_line();
    Ok(Some(test))
}

/// Reads the line of a test.
fn read_test(alloc: Global, line: &[u8]) -> Result<Option<Test>, AllocError>
    ensures { IfOk result (Spells IsTest test_line line.now) }
{
    let Some(spelled) = spelled_on(line) else {
        return Ok(None);
    };
    Ok(Some(own(alloc, spelled)?))
}

/// The test as one of its own.
fn own(alloc: Global, spelled: Spelled<'_>) -> Result<Test, AllocError>
    ensures { IfOk result (λ test. test ≡ test_of spelled.entry) }
{
    match spelled {
        Spelled::Has(named) => Ok(Test::Has(
            Text::from_str(alloc, named.property)?,
            Text::from_str(alloc, named.text)?,
        )),
        Spelled::Lacks(named) => Ok(Test::Lacks(
            Text::from_str(alloc, named.property)?,
            Text::from_str(alloc, named.text)?,
        )),
        Spelled::Error(property) => Ok(Test::Error(Text::from_str(alloc, property)?)),
    }
}

/// A test as a line spells it.
#[derive(Clone, Copy)]
enum Spelled<'a> {
    Has(Named<'a>),
    Lacks(Named<'a>),
    Error(&'a str),
}

/// The name of a property and a text, which fill a line behind a word.
#[derive(Clone, Copy)]
struct Named<'a> {
    property: &'a str,
    text: &'a str,
}

/// The test that the line spells.
fn spelled_on(line: &[u8]) -> Option<Spelled<'_>>
    ensures { SpellsTest line.now result }
{
    if let Some(rest) = after_word(line, b"has") {
        return Some(Spelled::Has(read_named(rest)?));
    }
    if let Some(rest) = after_word(line, b"lacks") {
        return Some(Spelled::Lacks(read_named(rest)?));
    }
    let Some(rest) = after_word(line, b"error") else {
        return None;
    };
    Some(Spelled::Error(read_name(rest)?))
}

/// Reads the name of a property and a text behind it.
fn read_named(text: &[u8]) -> Option<Named<'_>>
    ensures { MatchOption result ((property rest : List ℕ) → ¬ AreNamed text.now property rest)
        (λ named. AreNamed text.now named.property.now named.text.now) }
{
    let Some(cut) = first_field(text) else {
        return None;
    };
    let Some(property) = read_name(cut.first) else {
        return None;
    };
    let Some(text) = read_rest(cut.rest) else {
        return None;
    };
    Some(Named { property, text })
}
