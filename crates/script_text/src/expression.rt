// Expressions in braces.
ghost use Rattle.std.specs.Prelude.{◌≡◌, ◌<◌, ◌+◌, MatchOption, length, slice_index, take, drop};
ghost use Rattle.script_text.specs.Templates.{EndsExpression, HasNoEnd, IsOpened, OpensNone};

use crate::run::after;

/// The text behind a `{` that isn't doubled, where the text begins with that.
pub(crate) fn opened(text: &str) -> Option<&str>
    ensures { MatchOption result (OpensNone text.now) (λ inner. IsOpened text.now inner.now) }
{
    let inner = after(b'{', text)?;
    match after(b'{', inner) {
        Some(_) => None,
        None => Some(inner),
    }
}

/// An expression that ends at the first `}` outside of its string literals, and what follows that `}`.
pub(crate) fn split_expression(inner: &str) -> Option<(&str, &str)>
    ensures { MatchOption result (HasNoEnd inner.now) (λ cut. EndsExpression inner.now cut.0.now cut.1.now) }
{
    let mut in_literal = false;
    for (at, byte) in inner.as_bytes().iter().enumerate() {
        if *byte == b'}' && !in_literal {
            return Some(cut_around(inner, at));
        }
        in_literal = in_literal != (*byte == b'"');
    }
    None
}

/// What stands before an ASCII byte, and what follows it.
fn cut_around(text: &str, at: usize) -> (&str, &str)
    requires at_byte { at < length text.now }
    requires ascii { slice_index text.now at < 128 }
    ensures front { result.0.now ≡ take at text.now }
    ensures back { result.1.now ≡ drop (at + 1) text.now }
{
    let (before, _) = text.split_at(at);
    let (_, behind) = text.split_at(at + 1);
    (before, behind)
}
