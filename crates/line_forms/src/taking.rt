ghost use Rattle.std.specs.Prelude.{◌≡◌, ◌∷◌, [], List, ℕ, option_copied, IsTrue, ◌↔◌};
ghost use Rattle.line_forms.specs.Readers.{IsLineAhead, IsRestAhead, IsOver, Passes, TakesExactly};

use crate::fields::after_word;
use crate::lines::{Ahead, Lines};

// What readers of lines call.
impl<'a> Lines<'a> {
    /// The line ahead, if there is one.
    pub fn line_ahead(&self) -> Option<&'a [u8]>
        ensures { IsLineAhead self.now (option_copied result) }
    {
        match self.look() {
            Ahead::Line(line) => Some(line),
            Ahead::End | Ahead::Unended => None,
        }
    }

    /// What follows this word and a space on the line ahead, if it begins so.
    pub fn rest_ahead(&self, word: &[u8]) -> Option<&'a [u8]>
        ensures { IsRestAhead word.now self.now (option_copied result) }
    {
        after_word(self.line_ahead()?, word)
    }

    /// Whether nothing is left of the text, not even bytes that no LF ends.
    pub fn is_over(&self) -> bool
        ensures { IsTrue result ↔ IsOver self.now }
    {
        matches!(self.look(), Ahead::End)
    }

    /// Goes on behind the line ahead, if there is one.
    pub fn skip_line(&mut self)
        ensures { (line : List ℕ) (more : List (List ℕ)) → self.old.lines ≡ line ∷ more
            → Passes self.old self.new (line ∷ []) }
    {
        self.take_line();
    }

    /// Takes this line, if it is ahead, and answers whether it was.
    pub fn take_exactly(&mut self, line: &[u8]) -> bool
        ensures { TakesExactly line.now self.old self.new result }
    {
        let Some(ahead) = self.line_ahead() else {
            return false;
        };
        if !is_same(ahead, line) {
            return false;
        }
        self.skip_line();
        true
    }
}

fn is_same(text: &[u8], other: &[u8]) -> bool
    ensures { IsTrue result ↔ (text.now ≡ other.now) }
{
    text == other
}
