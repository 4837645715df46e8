// The other things of which a line consists.
ghost use Rattle.std.specs.Prelude.{MatchResult, [], codes};
ghost use Rattle.script_text.specs.Items as item;
ghost use Rattle.script_text.specs.Readings.{NotTaken};

use crate::error::Refusal;
use crate::expression::{opened, split_expression};
use crate::run::{Run, after, split_run};
use hex::FromHex;
use line_forms::{read_name, read_number};

/// The field that the text begins with, up to the next blank, and what follows it.
pub(crate) fn field(text: &str) -> Result<(&str, &str), Refusal>
    ensures { MatchResult result (λ r. item.field.Takes text.now r.0.now r.1.now) (λ e. NotTaken item.field text.now e) }
{
    let (field, rest) = split_run(Run::Field, text);
    if field.is_empty() {
        return Err(Refusal::NoCommand);
    }
    Ok((field, rest))
}

/// What follows this word, in any ASCII case, where it is the field that the text begins with.
pub(crate) fn word<'a>(word: &str, text: &'a str) -> Result<&'a str, Refusal>
    ensures { MatchResult result (λ r. (item.word word.now).Takes text.now tt r.now)
        (λ e. NotTaken (item.word word.now) text.now e) }
{
    let (field, rest) = field(text)?;
    if !field.eq_ignore_ascii_case(word) {
        return Err(Refusal::NoCommand);
    }
    Ok(rest)
}

/// What follows the blanks, of which there are one or more.
pub(crate) fn gap(text: &str) -> Result<&str, Refusal>
    ensures { MatchResult result (λ r. item.gap.Takes text.now tt r.now) (λ e. NotTaken item.gap text.now e) }
{
    let (blanks, rest) = split_run(Run::Blanks, text);
    if blanks.is_empty() {
        return Err(Refusal::NoCommand);
    }
    Ok(rest)
}

/// What follows an `=` with blanks around it or none.
pub(crate) fn loose_equals(text: &str) -> Result<&str, Refusal>
    ensures { MatchResult result (λ r. item.loose_equals.Takes text.now tt r.now) (λ e. NotTaken item.loose_equals text.now e) }
{
    let (_, left) = split_run(Run::Blanks, text);
    let (_, rest) = split_run(Run::Blanks, equals(left)?);
    Ok(rest)
}

/// What follows an `=`.
pub(crate) fn equals(text: &str) -> Result<&str, Refusal>
    ensures { MatchResult result (λ r. item.equals.Takes text.now tt r.now) (λ e. NotTaken item.equals text.now e) }
{
    match after(b'=', text) {
        Some(rest) => Ok(rest),
        None => Err(Refusal::NoCommand),
    }
}

/// A name between double quotes, without braces and quotes, and what follows it.
pub(crate) fn quoted_name(text: &str) -> Result<(&str, &str), Refusal>
    ensures { MatchResult result (λ r. item.quoted_name.Takes text.now r.0.now r.1.now)
        (λ e. NotTaken item.quoted_name text.now e) }
{
    let Some(inner) = after(b'"', text) else {
        return Err(Refusal::NoCommand);
    };
    let (name, left) = split_run(Run::Name, inner);
    match after(b'"', left) {
        Some(rest) => Ok((name, rest)),
        None => Err(Refusal::NoCommand),
    }
}

/// An expression in braces, and what follows it. `{{` begins none.
pub(crate) fn braced(text: &str) -> Result<(&str, &str), Refusal>
    ensures { MatchResult result (λ r. item.braced.Takes text.now r.0.now r.1.now) (λ e. NotTaken item.braced text.now e) }
{
    let Some(inner) = opened(text) else {
        return Err(Refusal::NoCommand);
    };
    match split_expression(inner) {
        Some(cut) => Ok(cut),
        None => Err(Refusal::BraceNotClosed),
    }
}

/// The end of the line.
pub(crate) fn ended(text: &str) -> Result<(), Refusal>
    ensures { MatchResult result (λ _. item.line_end.Takes text.now tt []) (λ e. NotTaken item.line_end text.now e) }
{
    if !text.is_empty() {
        return Err(Refusal::NoCommand);
    }
    Ok(())
}

/// A field that is a name.
pub(crate) fn name_field(text: &str) -> Result<(&str, &str), Refusal>
    ensures { MatchResult result (λ r. item.name_field.Takes text.now r.0.now r.1.now)
        (λ e. NotTaken item.name_field text.now e) }
{
    let (field, rest) = field(text)?;
    match read_name(field.as_bytes()) {
        Some(name) => Ok((name, rest)),
        None => Err(Refusal::NoCommand),
    }
}

/// A field `size:N` with a number from 0 to 18,446,744,073,709,551,615.
pub(crate) fn size_field(text: &str) -> Result<(u64, &str), Refusal>
    ensures { MatchResult result (λ r. item.size_field.Takes text.now r.0 r.1.now) (λ e. NotTaken item.size_field text.now e) }
{
    let (field, rest) = field(text)?;
    let Some(number) = field.as_bytes().strip_prefix(b"size:") else {
        return Err(Refusal::NoCommand);
    };
    match read_number(number, u64::MAX) {
        Some(size) => Ok((size, rest)),
        None => Err(Refusal::NoCommand),
    }
}

/// A field `sha1:HEX` with 40 hexadecimal digits in either case.
pub(crate) fn sha1_field(text: &str) -> Result<([u8; 20], &str), Refusal>
    ensures { MatchResult result (λ r. (item.digest_field (codes "sha1:") 20).Takes text.now r.0 r.1.now)
        (λ e. NotTaken (item.digest_field (codes "sha1:") 20) text.now e) }
{
    let (field, rest) = field(text)?;
    let Some(digits) = field.as_bytes().strip_prefix(b"sha1:") else {
        return Err(Refusal::NoCommand);
    };
    match <[u8; 20] as FromHex>::from_hex(digits) {
        Ok(digest) => Ok((digest, rest)),
        Err(_) => Err(Refusal::NoCommand),
    }
}

/// A field `sha256:HEX` with 64 hexadecimal digits in either case.
pub(crate) fn sha256_field(text: &str) -> Result<([u8; 32], &str), Refusal>
    ensures { MatchResult result (λ r. (item.digest_field (codes "sha256:") 32).Takes text.now r.0 r.1.now)
        (λ e. NotTaken (item.digest_field (codes "sha256:") 32) text.now e) }
{
    let (field, rest) = field(text)?;
    let Some(digits) = field.as_bytes().strip_prefix(b"sha256:") else {
        return Err(Refusal::NoCommand);
    };
    match <[u8; 32] as FromHex>::from_hex(digits) {
        Ok(digest) => Ok((digest, rest)),
        Err(_) => Err(Refusal::NoCommand),
    }
}
