ghost use Rattle.std.specs.Prelude.{◌≡◌, [], ◌∷◌, ◌++◌, List, ℕ, All, OnOk, OnErr};
ghost use Rattle.line_forms.specs.LineStates.{LineState, before_lines, lines_of, unended_of};
ghost use Rattle.line_forms.specs.Lines.{ended_line, lines_text, IsLine, IsBehindLines, IsAhead, Takes, TakesLine, StandsBehind};
ghost use Rattle.line_forms.specs.Readers.{IsOver, Passes};

use crate::around::write_around;
use crate::cut::cut_at;
use desk_base::Bytes;
use std::alloc::{AllocError, Global};
use std::marker::Model;

/// What stands ahead of a cursor over lines.
#[derive(Clone, Copy)]
pub enum Ahead<'a> {
    /// A line, without its LF.
    Line(&'a [u8]),
    /// Nothing: the text has ended.
    End,
    /// Bytes that no LF ends.
    Unended,
}

/// A cursor over the lines of a text. It knows the number of the line ahead, counted from 1; a line that is missing at the
/// end has the number after the last.
#[derive(Drop)]
pub struct Lines<'a> {
    left: &'a [u8],
    number: u32,
}

impl<'a> Model for Lines<'a> {
    ghost use Rattle.line_forms.specs.LineStates.{LineState, lines_of, unended_of};

    ghost Value = { LineState };

    ghost view = { λ l. record { lines = lines_of l.left.now; unended = unended_of l.left.now; number = l.number } };
}

impl<'a> Lines<'a> {
    /// Before the first line of the text.
    pub fn new(text: &'a [u8]) -> Lines<'a>
        ensures { result ≡ before_lines text.now }
    {
        Lines {
            left: text,
            number: 1,
        }
    }

    /// The number of the line ahead, counted from 1. It stands still at 4,294,967,295.
    pub fn number(&self) -> u32
        ensures { result ≡ self.now.number }
    {
        self.number
    }

    /// What stands ahead.
    pub fn look(&self) -> Ahead<'a>
        ensures { IsAhead self.now result }
    {
        if let Some(cut) = cut_at(self.left, b'\n') {
            return Ahead::Line(cut.first);
        }
        behind_lines(self.left)
    }

    /// What stands ahead. Where it is a line, the next one stands ahead afterwards.
    pub fn take_line(&mut self) -> Ahead<'a>
        ensures { Takes self.old self.new result }
    {
        if let Some(cut) = cut_at(self.left, b'\n') {
            self.left = cut.rest;
            self.number = self.number.saturating_add(1);
            return Ahead::Line(cut.first);
        }
        behind_lines(self.left)
    }
}

/// What stands ahead where no LF is left.
fn behind_lines(left: &[u8]) -> Ahead<'_>
    ensures { IsBehindLines left.now result }
{
    if left.is_empty() {
        Ahead::End
    } else {
        Ahead::Unended
    }
}

/// Appends a line and its LF.
pub fn write_line(alloc: Global, line: &[u8], out: &mut Bytes) -> Result<(), AllocError>
    ensures ok { OnOk result (out.new ≡ out.old ++ ended_line line.now) }
    ensures err { OnErr result (out.new ≡ out.old) }
{
    write_around(alloc, b"", line, b"\n", out)
}

/// A text is its ended lines and what stands behind the last LF.
pub fn lines_make_the_text()
    ensures whole { (text : List ℕ) → text ≡ lines_text (lines_of text) ++ unended_of text }
    ensures lines { (text : List ℕ) → All IsLine (lines_of text) }
    ensures unended { (text : List ℕ) → IsLine (unended_of text) }
{}

/// Lines and what stands behind them are read again from their text.
pub fn lines_are_read_again()
    ensures lines { (lines : List (List ℕ)) (unended : List ℕ) → All IsLine lines → IsLine unended
        → lines_of (lines_text lines ++ unended) ≡ lines }
    ensures unended { (lines : List (List ℕ)) (unended : List ℕ) → All IsLine lines → IsLine unended
        → unended_of (lines_text lines ++ unended) ≡ unended }
{}

/// A cursor that begins and takes lines stands behind the lines that it took. Where it passed these and nothing is left, the
/// text is theirs.
pub fn a_cursor_stands_behind_its_lines()
    ensures start { (text : List ℕ) → StandsBehind text [] (before_lines text) }
    ensures next { (text line : List ℕ) (before : List (List ℕ)) (old new : LineState)
        → StandsBehind text before old → TakesLine old new line
        → StandsBehind text (before ++ line ∷ []) new }
    ensures whole { (text : List ℕ) (lines : List (List ℕ)) (cursor : LineState)
        → Passes (before_lines text) cursor lines → IsOver cursor → text ≡ lines_text lines }
{}
