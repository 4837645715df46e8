// The lines that are printed of an office.
ghost use Rattle.std.specs.Prelude.{◌≡◌, ◌++◌, OnOk, map};
ghost use Rattle.line_forms.specs.FieldLists.{line_of};
ghost use Rattle.office_rules.specs.OfficeLines.{about_line, words_line};
ghost use Rattle.office_play.specs.Words.{spelled};

use desk_base::{Bytes, decimal};
use line_forms::write_signed_number;
use std::alloc::AllocError;

/// A word of a line.
#[derive(Clone, Copy)]
pub(crate) enum Word<'a> {
    Text(&'a str),
    Bytes(&'a [u8]),
    /// With a comma behind it.
    Comma(&'a str),
    Number(u64),
    /// A number that may have a sign.
    Signed(i64),
}

/// Appends a line of words. The error is want of memory, here and below, after which `out` is of no use.
#[tactic(auto, unfolding(office_rules::specs::OfficeLines::words_line))]
pub(crate) fn say_words(words: &[Word<'_>], out: &mut Bytes) -> Result<(), AllocError>
    ensures { OnOk result (out.new ≡ out.old ++ words_line (map spelled words.now)) }
{
    say_spaced(words, out)?;
    out.push(b'\n')
}

/// Appends a line of words and what is said of them.
#[tactic(auto, unfolding(office_rules::specs::OfficeLines::about_line))]
pub(crate) fn say_about(
    words: &[Word<'_>],
    said: &[Word<'_>],
    out: &mut Bytes,
) -> Result<(), AllocError>
    ensures { OnOk result (out.new ≡ out.old ++ about_line (map spelled words.now) (map spelled said.now)) }
{
    say_spaced(words, out)?;
    out.extend(b": ")?;
    say_spaced(said, out)?;
    out.push(b'\n')
}

/// Appends words with a space between any two.
fn say_spaced(words: &[Word<'_>], out: &mut Bytes) -> Result<(), AllocError>
    ensures { OnOk result (out.new ≡ out.old ++ line_of (map spelled words.now)) }
{
    let Some((first, more)) = words.split_first() else {
        return Ok(());
    };
    say_word(first, out)?;
    if more.is_empty() {
        return Ok(());
    }
    out.push(b' ')?;
    say_spaced(more, out)
}

/// Appends a word.
fn say_word(word: &Word<'_>, out: &mut Bytes) -> Result<(), AllocError>
    ensures { OnOk result (out.new ≡ out.old ++ spelled word.now) }
{
    match word {
        Word::Text(text) => out.extend(text.as_bytes()),
        Word::Bytes(bytes) => out.extend(bytes),
        Word::Comma(text) => {
            out.extend(text.as_bytes())?;
            out.extend(b",")
        }
        Word::Number(number) => decimal(*number, out),
        Word::Signed(number) => write_signed_number(*number, out),
    }
}
