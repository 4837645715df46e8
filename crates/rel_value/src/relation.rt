ghost use Rattle.std.specs.Prelude.{◌≡◌, nat_eq};
ghost use Rattle.std.specs.List.{starts_with, ends_with};
ghost use Rattle.rel_value.specs.Signs.{holds, occurs};

use rel_lexer::BinarySign;

/// Whether a relation of texts holds, by bytes. No other sign does.
pub(crate) fn holds(sign: BinarySign, left: &str, right: &str) -> bool
    ensures { result ≡ holds sign left.now right.now }
{
    match sign {
        BinarySign::Contains => occurs(right, left),
        BinarySign::IsContainedBy => occurs(left, right),
        BinarySign::StartsWith => starts(left, right),
        BinarySign::EndsWith => ends(left, right),
        BinarySign::DoesNotContain => !occurs(right, left),
        BinarySign::IsNotContainedBy => !occurs(left, right),
        BinarySign::DoesNotStartWith => !starts(left, right),
        BinarySign::DoesNotEndWith => !ends(left, right),
        _ => false,
    }
}

fn occurs(part: &str, text: &str) -> bool
    ensures { result ≡ occurs part.now text.now }
{
    text.contains(part)
}

fn starts(text: &str, front: &str) -> bool
    ensures { result ≡ starts_with nat_eq text.now front.now }
{
    text.starts_with(front)
}

fn ends(text: &str, back: &str) -> bool
    ensures { result ≡ ends_with nat_eq text.now back.now }
{
    text.ends_with(back)
}
