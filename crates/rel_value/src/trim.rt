ghost use Rattle.std.specs.Prelude.{◌≡◌};
ghost use Rattle.rel_value.specs.Casts.{without_back, without_front};

use rel_lexer::is_blank;

/// The text without blanks at both ends: space, tab, CR and LF.
pub(crate) fn trimmed(text: &str) -> &str
    ensures { result.now ≡ without_back (without_front text.now) }
{
    without_back(without_front(text))
}

fn without_front(text: &str) -> &str
    ensures { result.now ≡ without_front text.now }
{
    let mut left = text;
    while left.len() > 0 && is_blank(left.as_bytes()[0]) {
        left = &left[1..];
    }
    left
}

fn without_back(text: &str) -> &str
    ensures { result.now ≡ without_back text.now }
{
    let mut left = text;
    while left.len() > 0 && is_blank(left.as_bytes()[left.len() - 1]) {
        left = &left[..left.len() - 1];
    }
    left
}
