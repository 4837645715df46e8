// A row worked by hand from the rules of tokens in docs/LANGUAGE.md. What is refused, and what each piece reads as, stands in
// examples/tokens.qna.
use rel_lexer::{LexError, Sign, Text, Token, TokenKind, Tokens, tokens};
use std::alloc::{AllocError, Global};
use std::test::Fail;

const TEXT: &[u8] = b"Name_2 <=/* c */\"%22a%\" 007 ";

fn stands(token: &Token, from: u32, to: u32) -> bool {
    token.place.from == from && token.place.to == to
}

/// Whether these are the tokens of the text above.
fn are_its_tokens(tokens: &Tokens) -> bool {
    let [word, sign, text, number] = tokens.list.as_slice() else {
        return false;
    };
    matches!(&word.kind, TokenKind::Word(it) if it.as_str() == "name_2")
        && matches!(&sign.kind, TokenKind::Sign(Sign::LessOrEqual))
        && matches!(&text.kind, TokenKind::Text(it) if it.as_str() == "\"a%")
        && matches!(&number.kind, TokenKind::Number(7))
        && stands(word, 0, 6)
        && stands(sign, 7, 9)
        && stands(text, 16, 23)
        && stands(number, 24, 27)
        && tokens.end == 28
}

/// Whether a copy of these tokens is that, too.
fn are_copied(tokens: &Tokens) -> Result<bool, AllocError> {
    let copy = tokens.copy()?;
    Ok(are_its_tokens(&copy))
}

/// Whether the text above is read so, and its tokens are copied.
fn is_read(alloc: Global) -> Result<bool, AllocError> {
    match tokens(alloc, TEXT) {
        Ok(tokens) => Ok(are_its_tokens(&tokens) && are_copied(&tokens)?),
        Err(_) => Ok(false),
    }
}

#[test]
fn a_text_has_its_tokens(rt: HostRuntime) -> Result<(), Fail> {
    assert!(rt; is_read(rt.alloc())?);
    Ok(())
}

/// Whether a text of so many bytes, which are blanks, is refused as too long.
fn is_too_long(alloc: Global, count: usize) -> Result<bool, AllocError> {
    let mut text = Vec::new(alloc);
    for _ in 0..count {
        text.push(b' ')?;
    }
    Ok(matches!(tokens(alloc, &text), Err(LexError::TooLong)))
}

#[test]
fn a_text_has_65536_bytes_at_most(rt: HostRuntime) -> Result<(), Fail> {
    assert!(rt; !is_too_long(rt.alloc(), 65536)?);
    assert!(rt; is_too_long(rt.alloc(), 65537)?);
    Ok(())
}

fn is_copied(text: &Text, wanted: &str) -> Result<bool, AllocError> {
    let copy = text.copy()?;
    Ok(copy.as_str() == wanted)
}

/// Whether a text that grows is copied as it is then.
fn grows(alloc: Global) -> Result<bool, AllocError> {
    let mut text = Text::from_str(alloc, "gr")?;
    text.push("ün")?;
    is_copied(&text, "grün")
}

#[test]
fn texts_grow_and_are_copied(rt: HostRuntime) -> Result<(), Fail> {
    assert!(rt; grows(rt.alloc())?);
    Ok(())
}
