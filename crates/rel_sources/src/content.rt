ghost use Rattle.std.specs.Prelude.{◌≡◌, ◌∷◌, ◌++◌, ◌<◌, ◌≤◌, length, drop, IsUtf8, IfOk, OnOk};
ghost use Rattle.std.specs.Option.{option_copied};
ghost use Rattle.std.specs.Str.Lines.{lines, strip_carriage_return};
ghost use Rattle.line_forms.specs.Cuts.{Cuts};
ghost use Rattle.rel_sources.specs.Words.{readable};
ghost use Rattle.rel_sources.specs.Rows.{numbered};

use line_forms::Cut;
use memchr::memchr;
use rel_lexer::Text;
use std::alloc::{AllocError, Global};

/// The first line of a content, without its LF and a CR before that, and how many bytes it takes with its LF.
#[derive(Clone, Copy)]
pub(crate) struct FirstLine<'a> {
    pub(crate) line: &'a [u8],
    pub(crate) taken: usize,
}

/// The first line of a content that isn't empty.
pub(crate) fn first_line(content: &[u8]) -> FirstLine<'_>
    requires { 0 < length content.now }
    ensures lines { lines content.now ≡ result.line.now ∷ lines (drop result.taken content.now) }
    ensures some { 0 < result.taken }
    ensures inside { result.taken ≤ length content.now }
{
    match cut_line(content) {
        Some(cut) => FirstLine {
            line: without_return(cut.first),
            taken: content.len() - cut.rest.len(),
        },
        None => FirstLine {
            line: content,
            taken: content.len(),
        },
    }
}

/// Cuts a content at its first LF.
fn cut_line(content: &[u8]) -> Option<Cut<'_>>
    ensures { Cuts 10 content.now result }
{
    let at = memchr(b'\n', content)?;
    Some(Cut {
        first: &content[..at],
        rest: &content[at + 1..],
    })
}

/// A piece before an LF, without the CR at its end.
fn without_return(piece: &[u8]) -> &[u8]
    ensures { result.now ≡ strip_carriage_return piece.now }
{
    match piece {
        [line @ .., b'\r'] => line,
        _ => piece,
    }
}

/// The line of this number, counted from 1.
pub fn numbered_line(content: &[u8], number: i64) -> Option<&[u8]>
    ensures { option_copied result ≡ numbered number (lines content.now) }
{
    if number < 1 {
        return None;
    }
    let mut before = number as u64 - 1;
    let mut left = content;
    while !left.is_empty() {
        let first = first_line(left);
        if before == 0 {
            return Some(first.line);
        }
        before -= 1;
        left = &left[first.taken..];
    }
    None
}

/// Bytes as text, in which each wrong byte is a `?`.
pub fn readable(alloc: Global, bytes: &[u8]) -> Result<Text, AllocError>
    ensures { IfOk result (λ text. text ≡ readable bytes.now) }
{
    let mut text = Text::from_str(alloc, "")?;
    let mut left = bytes;
    loop {
        match str::from_utf8(left) {
            Ok(rest) => {
                text.push(rest)?;
                return Ok(text);
            }
            Err(error) => {
                let valid = error.valid_up_to();
                push_text(&mut text, &left[..valid])?;
                text.push("?")?;
                left = &left[valid + 1..];
            }
        }
    }
}

/// Appends bytes that are UTF-8.
fn push_text(text: &mut Text, bytes: &[u8]) -> Result<(), AllocError>
    requires { IsUtf8 bytes.now }
    ensures { OnOk result (text.new ≡ text.old ++ bytes.now) }
{
    match str::from_utf8(bytes) {
        Ok(more) => text.push(more),
        Err(_) => Ok(()),
    }
}
