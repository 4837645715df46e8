// Templates, part by part.
ghost use Rattle.std.specs.Prelude.{◌≡◌, ◌∷◌, [], IsTrue, ◌↔◌, MatchOption, MatchResult};
ghost use Rattle.script_text.specs.Items.{quoted, whole, rest_of_line, path_of_line, IsInQuotes, IsNotInQuotes};
ghost use Rattle.script_text.specs.Readings.{BeginsDoubled, NoPart, NoTemplate, NotTaken, NotWhole, is_verbatim};
ghost use Rattle.script_text.specs.Runs.{passes};
ghost use Rattle.script_text.specs.Templates.{IsAtEnd, IsPart, IsPlain, IsTemplate};
ghost use Rattle.script_text.specs.declared.error.Refusal.TheVariants.{Memory as OutOfMemory};

use crate::error::Refusal;
use crate::expression::{opened, split_expression};
use crate::run::{Run, after, split_run};
use crate::{Part2, PartList, Template};
use rel_lexer::Text;
use std::alloc::Global;

/// Where a template ends.
#[derive(Clone, Copy)]
pub(crate) enum Ending {
    /// With the text.
    Text,
    /// Before the first `"` outside of its expressions.
    Quote,
}

/// The template that the text begins with, and what follows it.
fn read_template(alloc: Global, ending: Ending, text: &str) -> Result<(Template, &str), Refusal>
    ensures { MatchResult result (λ r. IsTemplate ending text.now r.0 r.1.now) (λ e. NoTemplate ending text.now e) }
{
    let mut parts = Vec::new(alloc);
    let mut rest = text;
    'parts: while !is_at_end(ending, rest) {
        let (part, left) = read_part(alloc, ending, rest)?;
        parts.push(part)?;
        rest = left;
    }
    let parts = PartList::from_vec(parts);
    Ok((Template { parts }, rest))
}

/// Whether a template ends before this text.
fn is_at_end(ending: Ending, text: &str) -> bool
    ensures { IsTrue result ↔ IsAtEnd ending text.now }
{
    match ending {
        Ending::Text => text.is_empty(),
        Ending::Quote => after(b'"', text).is_some(),
    }
}

/// The part that the text begins with, and what follows it.
fn read_part(alloc: Global, ending: Ending, text: &str) -> Result<(Part2, &str), Refusal>
    requires { ¬ IsAtEnd ending text.now }
    ensures { MatchResult result (λ r. IsPart ending text.now r.0 r.1.now) (λ e. NoPart text.now e) }
{
    if text.is_empty() {
        return Err(Refusal::NoCommand);
    }
    let Some(inner) = opened(text) else {
        let (plain, rest) = read_plain(alloc, ending, text)?;
        return Ok((Part2::Plain(plain), rest));
    };
    let Some((expression, rest)) = split_expression(inner) else {
        return Err(Refusal::BraceNotClosed);
    };
    Ok((Part2::Expression(Text::from_str(alloc, expression)?), rest))
}

/// The text that stands for itself up to the next expression or the end of the template, `{{` as one `{`, and what
/// follows it.
fn read_plain(alloc: Global, ending: Ending, text: &str) -> Result<(Text, &str), Refusal>
    ensures { MatchResult result (λ r. IsPlain ending text.now r.0 r.1.now) (λ e. e ≡ OutOfMemory) }
{
    let mut plain = Text::from_str(alloc, "")?;
    let mut rest = text;
    loop {
        let (run, left) = split_run(plain_run(ending), rest);
        plain.push(run)?;
        let Some(behind) = after_doubled(left) else {
            return Ok((plain, left));
        };
        plain.push("{")?;
        rest = behind;
    }
}

/// The bytes that stand for themselves.
fn plain_run(ending: Ending) -> Run
    ensures { passes result ≡ is_verbatim ending }
{
    match ending {
        Ending::Text => Run::Plain,
        Ending::Quote => Run::QuotedPlain,
    }
}

/// What follows `{{`, where the text begins with it.
fn after_doubled(text: &str) -> Option<&str>
    ensures { MatchOption result (¬ BeginsDoubled text.now) (λ rest. text.now ≡ 123 ∷ 123 ∷ rest.now) }
{
    after(b'{', after(b'{', text)?)
}

/// A text that is a template.
pub(crate) fn whole_template(alloc: Global, text: &str) -> Result<Template, Refusal>
    ensures { MatchResult result (λ t. whole.Takes text.now t []) (λ e. NotWhole text.now e) }
{
    let (template, _) = read_template(alloc, Ending::Text, text)?;
    Ok(template)
}

/// A template between double quotes that the text begins with, and what follows it.
pub(crate) fn quoted(alloc: Global, text: &str) -> Result<(Template, &str), Refusal>
    ensures { MatchResult result (λ r. quoted.Takes text.now r.0 r.1.now) (λ e. NotTaken quoted text.now e) }
{
    let Some(inner) = after(b'"', text) else {
        return Err(Refusal::NoCommand);
    };
    let (template, left) = read_template(alloc, Ending::Quote, inner)?;
    match after(b'"', left) {
        Some(rest) => Ok((template, rest)),
        None => Err(Refusal::NoCommand),
    }
}

/// The rest of a line as a template. It has one byte or more.
pub(crate) fn rest_of_line(alloc: Global, text: &str) -> Result<Template, Refusal>
    ensures { MatchResult result (λ t. rest_of_line.Takes text.now t []) (λ e. NotTaken rest_of_line text.now e) }
{
    if text.is_empty() {
        return Err(Refusal::NoCommand);
    }
    whole_template(alloc, text)
}

/// The rest of a line as a template, without the quotes where it begins and ends with one. It has one byte or more.
pub(crate) fn path_of_line(alloc: Global, text: &str) -> Result<Template, Refusal>
    ensures { MatchResult result (λ t. path_of_line.Takes text.now t []) (λ e. NotTaken path_of_line text.now e) }
{
    match between_quotes(text) {
        Some(inner) => whole_template(alloc, inner),
        None => rest_of_line(alloc, text),
    }
}

/// What stands between a quote at the begin of the text and another one at its end.
fn between_quotes(text: &str) -> Option<&str>
    ensures { MatchOption result (IsNotInQuotes text.now) (λ inner. IsInQuotes text.now inner.now) }
{
    let inner = after(b'"', text)?;
    let last = inner.len().checked_sub(1)?;
    if inner.as_bytes()[last] != b'"' {
        return None;
    }
    let (kept, _) = inner.split_at(last);
    Some(kept)
}
