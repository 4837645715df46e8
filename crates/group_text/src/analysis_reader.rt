ghost use Rattle.std.specs.Prelude.{ℕ, ℤ, List, IfOk, IsTrue, ◌↔◌, MatchOption};
ghost use Rattle.line_forms.specs.Readers.{Spells, TakesAll, TakesOne};
ghost use Rattle.std.specs.Fmt.{signed_decimal};
ghost use Rattle.group_text.specs.Analyses.{CanFollow, HasName, ReadsAnalysis};
ghost use Rattle.group_text.specs.Readings.{AreFields};
ghost use Rattle.group_text.specs.Properties.{AreProperties, IsPeriod, IsProperty, IsQuestion, property_line, property_rest};

use crate::analysis::{Analysis, Properties};
use crate::error::GroupError;
use crate::list::add;
use crate::property::Property;
use line_forms::{Lines, first_field, read_i64, read_name, read_rest};
use rel_eval::prepare;
use rel_lexer::Text;
use std::alloc::{AllocError, Global};

/// The most properties of an analysis.
const MOST_PROPERTIES: usize = 100;

/// The longest period of a property, in seconds.
const LONGEST_PERIOD: i64 = 2_147_483_648;

/// Reads an analysis: the line `analysis`, a line for each of 1 to 100 properties, and the line `end`. A text that isn't that of an
/// analysis is answered by its first bad line; one whose question is refused is bad.
pub fn read_analysis(alloc: Global, text: &[u8]) -> Result<Analysis, GroupError>
    ensures reads { ReadsAnalysis text.now result }
    ensures good { IfOk result (λ analysis. AreProperties analysis.properties) }
{
    let mut lines = Lines::new(text);
    if !lines.take_exactly(b"analysis") {
        return Err(GroupError::BadAnalysis(lines.number()));
    }
    let properties = take_properties(alloc, &mut lines)?;
    if properties.is_empty() {
        return Err(GroupError::BadAnalysis(lines.number()));
    }
    if !lines.take_exactly(b"end") {
        return Err(GroupError::BadAnalysis(lines.number()));
    }
    if !lines.is_over() {
        return Err(GroupError::BadAnalysis(lines.number()));
    }
    Ok(Analysis {
        properties: Properties::from_vec(properties),
    })
}

/// Takes the lines of properties, as far as they go.
fn take_properties(alloc: Global, lines: &mut Lines<'_>) -> Result<Vec<Property>, AllocError>
    ensures { IfOk result (λ list. TakesAll CanFollow property_line lines.old lines.new list.items) }
{
    let mut properties = Vec::new(alloc);
    while let Some(property) = take_property(alloc, properties.as_slice(), lines)? {
        add(&mut properties, property)?;
    }
    Ok(properties)
}

/// Takes the line of a property that can follow these, if it is ahead.
fn take_property(
    alloc: Global,
    before: &[Property],
    lines: &mut Lines<'_>,
) -> Result<Option<Property>, AllocError>
    ensures { IfOk result (TakesOne (CanFollow before.now) property_line lines.old lines.new) }
{
    if before.len() >= MOST_PROPERTIES {
        return Ok(None);
    }
    let Some(rest) = lines.rest_ahead(b"property") else {
        return Ok(None);
    };
    let Some(property) = read_property(alloc, rest)? else {
        return Ok(None);
    };
    if has_name(before, property.name.as_str()) {
        return Ok(None);
    }
    lines.skip_line();
    Ok(Some(property))
}

/// Whether one of these properties has the name.
fn has_name(properties: &[Property], name: &str) -> bool
    ensures { IsTrue result ↔ HasName properties.now name.now }
{
    properties
        .iter()
        .any(|property| property.name.as_str() == name)
}

/// The fields of a property.
#[derive(Clone, Copy)]
struct PropertyFields<'a> {
    name: &'a str,
    period: i64,
    question: &'a str,
}

/// Reads a property from what stands behind its word. One whose question is refused is none.
fn read_property(alloc: Global, rest: &[u8]) -> Result<Option<Property>, AllocError>
    ensures { IfOk result (Spells IsProperty property_rest rest.now) }
{
    let Some(fields) = read_fields(rest) else {
        return Ok(None);
    };
    if !is_question(alloc, fields.question)? {
        return Ok(None);
    }
    Ok(Some(Property {
        name: Text::from_str(alloc, fields.name)?,
        period: fields.period,
        question: Text::from_str(alloc, fields.question)?,
    }))
}

/// Reads the fields of a property, whose question may be none.
fn read_fields(text: &[u8]) -> Option<PropertyFields<'_>>
    ensures { MatchOption result
        ((name : List ℕ) (period : ℤ) (question : List ℕ) → ¬ AreFields text.now name period question)
        (λ fields. AreFields text.now fields.name.now fields.period fields.question.now) }
{
    let Some(named) = first_field(text) else {
        return None;
    };
    let Some(timed) = first_field(named.rest) else {
        return None;
    };
    let Some(name) = read_name(named.first) else {
        return None;
    };
    let Some(period) = read_period(timed.first) else {
        return None;
    };
    let Some(question) = read_rest(timed.rest) else {
        return None;
    };
    Some(PropertyFields {
        name,
        period,
        question,
    })
}

/// Reads a period in seconds: from 0 to 2,147,483,648.
fn read_period(text: &[u8]) -> Option<i64>
    ensures { Spells IsPeriod signed_decimal text.now result }
{
    let period = read_i64(text)?;
    if period < 0 || period > LONGEST_PERIOD {
        return None;
    }
    Some(period)
}

/// Whether the text is a question.
fn is_question(alloc: Global, text: &str) -> Result<bool, AllocError>
    ensures { IfOk result (λ is. IsTrue is ↔ IsQuestion text.now) }
{
    match prepare(alloc, text.as_bytes()) {
        Ok(_) => Ok(true),
        Err(refusal) => match refusal.located() {
            Some(_) => Ok(false),
            // want of memory
            None => Err(AllocError),
        },
    }
}
