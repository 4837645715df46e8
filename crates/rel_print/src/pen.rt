// Tokens written one after another.
ghost use Rattle.std.specs.Prelude.{◌≡◌, IfOk};
ghost use Rattle.rel_lexer.specs.Signs.{spelling};
ghost use Rattle.rel_print.specs.Pages.{blank_page, is_equal, is_times, join_signs, put, put_number, put_sign, put_string, put_words, run_together};

use crate::escape::push_escaped;
use itoa::Buffer;
use rel_lexer::{Sign, Text};
use std::alloc::{AllocError, Global};

/// What a text ends with. It decides what may follow without a blank.
#[derive(Clone, Copy)]
pub(crate) enum Last {
    Word,
    Number,
    Sign(Sign),
    /// A string, or nothing.
    Other,
}

/// A text to which tokens are written, with a blank between two that would run together.
#[derive(Drop)]
pub(crate) struct Pen {
    pub(crate) text: Text,
    pub(crate) last: Last,
}

impl Last {
    /// Whether a token of the other kind runs together with this one, if no blank stands between them.
    fn runs_into(self, next: Last) -> bool
        ensures { result ≡ run_together self next }
    {
        match self {
            Last::Word => next.is_word_or_number(),
            Last::Number => next.is_number(),
            Last::Sign(sign) => next.continues(sign),
            Last::Other => false,
        }
    }

    fn is_word_or_number(self) -> bool
        ensures { result ≡ run_together Last.Word self }
    {
        match self {
            Last::Word => true,
            Last::Number => true,
            Last::Sign(_) => false,
            Last::Other => false,
        }
    }

    fn is_number(self) -> bool
        ensures { result ≡ run_together Last.Number self }
    {
        match self {
            Last::Word => false,
            Last::Number => true,
            Last::Sign(_) => false,
            Last::Other => false,
        }
    }

    fn continues(self, sign: Sign) -> bool
        ensures { result ≡ run_together (Last.Sign sign) self }
    {
        match self {
            Last::Word => false,
            Last::Number => false,
            Last::Sign(next) => join_signs(sign, next),
            Last::Other => false,
        }
    }
}

/// Whether two signs together begin a longer sign or a comment.
fn join_signs(sign: Sign, next: Sign) -> bool
    ensures { result ≡ join_signs sign next }
{
    match sign {
        Sign::Less => is_equal(next),
        Sign::Greater => is_equal(next),
        Sign::Slash => is_times(next),
        _ => false,
    }
}

fn is_equal(sign: Sign) -> bool
    ensures { result ≡ is_equal sign }
{
    match sign {
        Sign::Equal => true,
        _ => false,
    }
}

fn is_times(sign: Sign) -> bool
    ensures { result ≡ is_times sign }
{
    match sign {
        Sign::Times => true,
        _ => false,
    }
}

impl Pen {
    /// Before anything is written.
    pub(crate) fn new(alloc: Global) -> Result<Pen, AllocError>
        ensures { IfOk result (λ pen. pen ≡ blank_page) }
    {
        Ok(Pen {
            text: Text::from_str(alloc, "")?,
            last: Last::Other,
        })
    }

    /// Words that one blank joins.
    pub(crate) fn words(&mut self, words: &str) -> Result<(), AllocError>
        ensures { IfOk result (λ _. self.new ≡ put_words words.now self.old) }
    {
        self.put(Last::Word, words)
    }

    pub(crate) fn number(&mut self, number: i64) -> Result<(), AllocError>
        ensures { IfOk result (λ _. self.new ≡ put_number number self.old) }
    {
        let mut buffer = Buffer::new();
        self.put(Last::Number, buffer.format(number))
    }

    pub(crate) fn sign(&mut self, sign: Sign) -> Result<(), AllocError>
        ensures { IfOk result (λ _. self.new ≡ put_sign sign self.old) }
    {
        self.put(Last::Sign(sign), spelling(sign))
    }

    /// A string between quotes, from which it reads back.
    pub(crate) fn string(&mut self, text: &str) -> Result<(), AllocError>
        ensures { IfOk result (λ _. self.new ≡ put_string text.now self.old) }
    {
        self.put(Last::Other, "\"")?;
        push_escaped(text, &mut self.text)?;
        self.text.push("\"")?;
        Ok(())
    }

    fn put(&mut self, next: Last, bytes: &str) -> Result<(), AllocError>
        ensures { IfOk result (λ _. self.new ≡ put next bytes.now self.old) }
    {
        if self.last.runs_into(next) {
            self.text.push(" ")?;
        }
        self.text.push(bytes)?;
        self.last = next;
        Ok(())
    }
}

fn spelling(sign: Sign) -> &'static str
    ensures { result.now ≡ spelling sign }
{
    match sign {
        Sign::OpenBracket => "(",
        Sign::CloseBracket => ")",
        Sign::Semicolon => ";",
        Sign::Comma => ",",
        Sign::Plus => "+",
        Sign::Minus => "-",
        Sign::Times => "*",
        Sign::Slash => "/",
        Sign::Ampersand => "&",
        Sign::Equal => "=",
        Sign::NotEqual => "!=",
        Sign::Less => "<",
        Sign::LessOrEqual => "<=",
        Sign::Greater => ">",
        Sign::GreaterOrEqual => ">=",
        Sign::Bar => "|",
    }
}
