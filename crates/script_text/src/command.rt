ghost use Rattle.std.specs.Prelude.{◌≡◌, IsTrue, ◌↔◌, MatchResult};
ghost use Rattle.script_text.specs.Forms.{Outcome, reads, form, kind_form};
ghost use Rattle.script_text.specs.Lines.{CommandReads, IsNothing, LineReads};
ghost use Rattle.script_text.specs.Readings.{NotOfForm};
ghost use Rattle.script_text.specs.Scripts.{fetch_at};

use crate::error::Refusal;
use crate::fields::{gap, word};
use crate::kind::{KINDS, Kind};
use crate::run::{after, trimmed};
use crate::{Line, Prefetch, forms};
use rel_lexer::Text;
use std::alloc::Global;

/// What a line is by itself.
#[derive(Drop)]
pub(crate) enum Command {
    /// An empty line or a comment.
    Nothing,
    /// A line that does something.
    Do(Line),
    /// Its test.
    If(Text),
    /// Its test.
    ElseIf(Text),
    Else,
    EndIf,
    /// A `createfile` up to a line equal to this word.
    Create(Text),
    Prefetch(Source),
}

/// A file to be fetched.
#[derive(Drop)]
pub(crate) struct Source {
    pub(crate) name: Text,
    pub(crate) sha1: [u8; 20],
    pub(crate) size: u64,
    pub(crate) url: Text,
    pub(crate) sha256: [u8; 32],
}

impl Source {
    /// The file that the line with this number names.
    pub(crate) fn at(self, line: u32) -> Prefetch
        ensures { result ≡ fetch_at line self }
    {
        let Source {
            name,
            sha1,
            size,
            url,
            sha256,
        } = self;
        Prefetch {
            line,
            name,
            sha1,
            size,
            url,
            sha256,
        }
    }
}

/// Reads a line that isn't content of a `createfile`.
pub(crate) fn read_line(alloc: Global, line: &str) -> Result<Command, Refusal>
    ensures { MatchResult result (λ c. LineReads line.now (reads c)) (λ e. NotOfForm LineReads line.now e) }
{
    let text = trimmed(line);
    if is_nothing(text) {
        return Ok(Command::Nothing);
    }
    read_command(alloc, text)
}

/// Whether this is empty or a comment.
fn is_nothing(text: &str) -> bool
    ensures { IsTrue result ↔ IsNothing text.now }
{
    if text.is_empty() {
        return true;
    }
    match after(b'/', text) {
        Some(rest) => after(b'/', rest).is_some(),
        None => false,
    }
}

/// Reads a line without blanks at its ends as a command of some kind.
fn read_command(alloc: Global, text: &str) -> Result<Command, Refusal>
    ensures { MatchResult result (λ c. CommandReads text.now (reads c)) (λ e. NotOfForm CommandReads text.now e) }
{
    for kind in KINDS {
        match read_kind(alloc, kind, text) {
            Ok(command) => return Ok(command),
            Err(Refusal::NoCommand) => {}
            Err(Refusal::BraceNotClosed) => return Err(Refusal::BraceNotClosed),
            Err(Refusal::Memory) => return Err(Refusal::Memory),
        }
    }
    Err(Refusal::NoCommand)
}

/// Reads a line as a command of this kind.
fn read_kind(alloc: Global, kind: Kind, text: &str) -> Result<Command, Refusal>
    ensures { MatchResult result (λ c. kind_form kind text.now (reads c)) (λ e. NotOfForm (kind_form kind) text.now e) }
{
    forms::read_form(alloc, kind, after_words(kind, text)?)
}

/// What follows the words with which lines of this kind begin.
fn after_words(kind: Kind, text: &str) -> Result<&str, Refusal>
    ensures { MatchResult result
        (λ r. (outcome : Outcome) → form kind r.now outcome → kind_form kind text.now outcome)
        (λ e. NotOfForm (kind_form kind) text.now e) }
{
    let rest = word(kind.word(), text)?;
    match kind.second_word() {
        Some(second) => word(second, gap(rest)?),
        None => Ok(rest),
    }
}
