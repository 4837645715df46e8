ghost use Rattle.std.specs.Prelude.{◌≡◌, Some};
ghost use Rattle.line_forms.specs.Reads.{Reads};
ghost use Rattle.rel_session.specs.Sessions.{Asks, begins_with_colon, IsPageLine};

use line_forms::read_number;

/// What a line asks for.
#[derive(Clone, Copy)]
pub enum Line {
    /// It is a question.
    Question,
    /// `:page n`: from then on so many values are told at a time, from 0 to 1,000,000; with 0 all of them.
    Page(u64),
    /// `:more`: the question that was paused last goes on.
    More,
    /// It begins with `:`, and is none of these.
    NoCommand,
}

/// The most values that are told at a time.
const LARGEST_PAGE: u64 = 1_000_000;

impl Line {
    /// What this line asks for.
    pub(crate) fn of(line: &[u8]) -> Line
        ensures { Asks line.now result }
    {
        if !begins_with_colon(line) {
            return Line::Question;
        }
        if line == b":more".as_slice() {
            return Line::More;
        }
        match page_size(line) {
            Some(size) => Line::Page(size),
            None => Line::NoCommand,
        }
    }
}

fn begins_with_colon(line: &[u8]) -> bool
    ensures { result ≡ begins_with_colon line.now }
{
    match line.first() {
        Some(byte) => *byte == b':',
        None => false,
    }
}

/// The number of a `:page n`.
fn page_size(line: &[u8]) -> Option<u64>
    ensures { Reads (IsPageLine line.now) result }
{
    let size = line.strip_prefix(b":page ")?;
    read_number(size, LARGEST_PAGE)
}
