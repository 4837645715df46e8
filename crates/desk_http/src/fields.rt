// The fields of a head that say how long the body is.
ghost use Rattle.std.specs.Prelude.{◌≡◌, ℕ, List, [], ◌∷◌, ◌++◌, length, map, All};
ghost use Rattle.httparse.specs.Spans.{IsHeaderWithin, header_bytes};
ghost use Rattle.desk_http.specs.Fields.{has_leading_zero, named, number_in, request_length, reply_length};
ghost use Rattle.desk_http.specs.Reading.{IsNamed, IsFraming, IsClamped};

use httparse::spans::{HeaderSpan, Span};

/// What was found of a name.
#[derive(Clone, Copy)]
enum Named {
    Nothing,
    /// One field, with its value here.
    One(Span),
    More,
}

impl Named {
    /// After this field, where it has the name.
    fn after(self, buf: &[u8], field: &HeaderSpan, name: &[u8]) -> Named
        requires { IsHeaderWithin (length buf.now) field.now }
        ensures { (fields : List (List ℕ × List ℕ)) → IsNamed buf.now (named name.now fields) self
            → IsNamed buf.now (named name.now (fields ++ header_bytes buf.now field.now ∷ [])) result }
    {
        if !field.name.of(buf).eq_ignore_ascii_case(name) {
            return self;
        }
        match self {
            Named::Nothing => Named::One(field.value),
            Named::One(_) => Named::More,
            Named::More => Named::More,
        }
    }
}

/// What was found of the names that say how long the body is.
#[derive(Clone, Copy)]
struct Framing {
    coding: Named,
    host: Named,
    size: Named,
}

/// What these fields say of how long the body is.
fn find_framing(buf: &[u8], fields: &[HeaderSpan]) -> Framing
    requires { All (IsHeaderWithin (length buf.now)) fields.now }
    ensures { IsFraming buf.now (map (header_bytes buf.now) fields.now) result }
{
    let mut coding = Named::Nothing;
    let mut host = Named::Nothing;
    let mut size = Named::Nothing;
    let mut rest = fields;
    while let [field, others @ ..] = rest {
        rest = others;
        coding = coding.after(buf, field, b"transfer-encoding");
        host = host.after(buf, field, b"host");
        size = size.after(buf, field, b"content-length");
    }
    Framing { coding, host, size }
}

/// A number in decimal digits without leading zeros, the greatest u64 where it is greater.
fn clamped_number(text: &[u8]) -> Option<u64>
    ensures { IsClamped (number_in text.now) result }
{
    if text.is_empty() {
        return None;
    }
    if has_leading_zero(text) {
        return None;
    }
    let mut value: u64 = 0;
    let mut rest = text;
    while let [byte, after @ ..] = rest {
        rest = after;
        if !byte.is_ascii_digit() {
            return None;
        }
        value = value
            .saturating_mul(10)
            .saturating_add(u64::from(*byte - b'0'));
    }
    Some(value)
}

fn has_leading_zero(text: &[u8]) -> bool
    ensures { result ≡ has_leading_zero text.now }
{
    text.len() > 1 && text[0] == b'0'
}

/// How long the body of a request is, where its fields are good. The greatest u64 stands for any length above it, here and below.
pub(crate) fn request_length(minor: u8, buf: &[u8], fields: &[HeaderSpan]) -> Option<u64>
    requires { All (IsHeaderWithin (length buf.now)) fields.now }
    ensures { IsClamped (request_length minor (map (header_bytes buf.now) fields.now)) result }
{
    let found = find_framing(buf, fields);
    match found.coding {
        Named::Nothing => {}
        Named::One(_) | Named::More => return None,
    }
    match found.host {
        Named::Nothing => {
            if minor == 1 {
                return None;
            }
        }
        Named::One(_) => {}
        Named::More => return None,
    }
    match found.size {
        Named::Nothing => Some(0),
        Named::One(value) => clamped_number(value.of(buf)),
        Named::More => None,
    }
}

/// How long the body of a reply is, where it says so once.
pub(crate) fn reply_length(buf: &[u8], fields: &[HeaderSpan]) -> Option<u64>
    requires { All (IsHeaderWithin (length buf.now)) fields.now }
    ensures { IsClamped (reply_length (map (header_bytes buf.now) fields.now)) result }
{
    match find_framing(buf, fields).size {
        Named::One(value) => clamped_number(value.of(buf)),
        Named::Nothing | Named::More => None,
    }
}
