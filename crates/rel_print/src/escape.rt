// Text as it stands between the quotes of a string.
ghost use Rattle.std.specs.Prelude.{◌≡◌, ◌++◌, OnOk};
ghost use Rattle.rel_print.specs.Pages.{begins_hex, escaped, percent, quotes_escaped};

use rel_lexer::Text;
use std::alloc::AllocError;

/// Appends a text with its `"`, and each `%` that two hexadecimal digits follow, as `%` and their two digits.
pub(crate) fn push_escaped(text: &str, out: &mut Text) -> Result<(), AllocError>
    ensures { OnOk result (out.new ≡ out.old ++ escaped text.now) }
{
    let mut rest = text;
    while let Some((front, back)) = rest.split_once('%') {
        push_quotes_escaped(front, out)?;
        out.push(percent(back))?;
        rest = back;
    }
    push_quotes_escaped(rest, out)?;
    Ok(())
}

/// A `%` that stands before this text.
fn percent(rest: &str) -> &'static str
    ensures { result.now ≡ percent rest.now }
{
    if begins_hex(rest) { "%25" } else { "%" }
}

fn push_quotes_escaped(text: &str, out: &mut Text) -> Result<(), AllocError>
    ensures { OnOk result (out.new ≡ out.old ++ quotes_escaped text.now) }
{
    let mut rest = text;
    while let Some((front, back)) = rest.split_once('"') {
        out.push(front)?;
        out.push("%22")?;
        rest = back;
    }
    out.push(rest)?;
    Ok(())
}

fn begins_hex(text: &str) -> bool
    ensures { result ≡ begins_hex text.now }
{
    match text.as_bytes() {
        [first, second, ..] => first.is_ascii_hexdigit() && second.is_ascii_hexdigit(),
        _ => false,
    }
}
