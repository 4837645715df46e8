ghost use Rattle.std.specs.Prelude.{◌≡◌, Option, decimal, codes, IfSome, IsTrue, ◌↔◌};
ghost use Rattle.act_rules.specs.declared.row.Outcome.{Outcome};
ghost use Rattle.report_text.specs.ReportRows.{IsAttempt, IsExit};
ghost use Rattle.report_text.specs.RowLines.{outcome_word, exit_field};
ghost use Rattle.line_forms.specs.Readers.{Spells, IsAny};
ghost use Rattle.report_text.specs.FieldTexts.{ReadsEnd, ReadsPlace};

use act_rules::Outcome;
use line_forms::{read_i64, read_moment, read_u32};

/// Reads the number of an attempt: from 1 to 4,294,967,295.
pub fn read_attempt(text: &[u8]) -> Option<u32>
    ensures { Spells IsAttempt decimal text.now result }
{
    let number = read_u32(text)?;
    if number == 0 {
        return None;
    }
    Some(number)
}

fn is_word(text: &[u8], word: &[u8]) -> bool
    ensures { IsTrue result ↔ (text.now ≡ word.now) }
{
    text == word
}

fn is_dash(text: &[u8]) -> bool
    ensures { IsTrue result ↔ (text.now ≡ codes "-") }
{
    is_word(text, b"-")
}

/// Reads the word of an outcome.
pub fn read_outcome(word: &[u8]) -> Option<Outcome>
    ensures { Spells IsAny outcome_word word.now result }
{
    if is_word(word, b"fixed") {
        return Some(Outcome::Fixed);
    }
    if is_word(word, b"failed") {
        return Some(Outcome::Failed);
    }
    if is_word(word, b"interrupted") {
        return Some(Outcome::Interrupted);
    }
    None
}

/// Reads the end of a row: its outcome and its moment, or `running` and `-`.
pub fn read_end(word: &[u8], moment: &[u8]) -> Option<Option<(i64, Outcome)>>
    ensures { ReadsEnd word.now moment.now result }
{
    if is_word(word, b"running") {
        if !is_dash(moment) {
            return None;
        }
        return Some(None);
    }
    let outcome = read_outcome(word)?;
    let moment = read_moment(moment)?;
    Some(Some((moment, outcome)))
}

/// Reads an exit code, or `-`.
pub(crate) fn read_exit(text: &[u8]) -> Option<Option<i64>>
    ensures { Spells (λ exit. IfSome exit IsExit) exit_field text.now result }
{
    if is_dash(text) {
        return Some(None);
    }
    let exit = read_i64(text)?;
    Some(Some(exit))
}

/// Reads the component and the line of a failure, or `-` twice.
pub(crate) fn read_place(component: &[u8], line: &[u8]) -> Option<Option<(u32, u32)>>
    ensures { ReadsPlace component.now line.now result }
{
    if is_dash(component) {
        if !is_dash(line) {
            return None;
        }
        return Some(None);
    }
    let component = read_u32(component)?;
    let line = read_u32(line)?;
    Some(Some((component, line)))
}
