// Actions that are aimed at computers.
ghost use Rattle.std.specs.Prelude.{◌≡◌, ℕ, List, ◌∷◌, ◌++◌, IfOk, OnOk, map};
ghost use Rattle.line_forms.specs.Lines.{lines_text};
ghost use Rattle.fix_site.specs.Actions as action;
ghost use Rattle.office_rules.specs.GroupWords.{aimed};
ghost use Rattle.office_play.specs.Aiming.{rest_aimed};

use desk_base::Bytes;
use line_forms::Lines;
use rel_lexer::Text;
use std::alloc::{AllocError, Global};

/// The text of an action whose first line for all computers has become one for each of these. The error is want of memory, here and below.
pub(crate) fn aimed(alloc: Global, computers: &[Text], text: &[u8]) -> Result<Bytes, AllocError>
    ensures { IfOk result (λ then. then ≡ aimed computers.now text.now) }
{
    let mut lines = Lines::new(text);
    let mut out = Bytes::new(alloc);
    let mut is_aimed = false;
    while let Some(line) = lines.line_ahead() {
        is_aimed = say_line(computers, line, is_aimed, &mut out)?;
        lines.skip_line();
    }
    Ok(out)
}

/// Appends a line, or, where it is the first for all computers, one for each of these. Answers whether such a line stood by then.
fn say_line(
    computers: &[Text],
    line: &[u8],
    is_aimed: bool,
    out: &mut Bytes,
) -> Result<bool, AllocError>
    ensures { IfOk result (λ aimed. (more : List (List ℕ)) → out.new ++ lines_text (rest_aimed aimed computers.now more)
        ≡ out.old ++ lines_text (rest_aimed is_aimed computers.now (line.now ∷ more))) }
{
    if !is_aimed && line == b"target all".as_slice() {
        say_computers(computers, out)?;
        return Ok(true);
    }
    out.extend(line)?;
    out.push(b'\n')?;
    Ok(is_aimed)
}

/// Appends a line for each of these computers.
fn say_computers(computers: &[Text], out: &mut Bytes) -> Result<(), AllocError>
    ensures { OnOk result (out.new ≡ out.old ++ lines_text (map action.computer_line computers.now)) }
{
    for computer in computers {
        out.extend(b"target computer ")?;
        out.extend(computer.as_str().as_bytes())?;
        out.push(b'\n')?;
    }
    Ok(())
}
