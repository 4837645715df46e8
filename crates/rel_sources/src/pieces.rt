ghost use Rattle.std.specs.Prelude.{◌≡◌, ◌+◌, ◌≤◌, ◌<◌, ◌∷◌, length, drop};
ghost use Rattle.std.specs.Option.{option_map, ForSome};
ghost use Rattle.std.specs.Str.{IsCharBoundary};
ghost use Rattle.rel_sources.specs.Words.{pieces_by, pieces_from};
ghost use Rattle.rel_sources.specs.Draws.{Draws};

use crate::held::{Drawn, HeldItem};
use rel_lexer::Text;
use std::alloc::Global;

/// The pieces of a text between separators.
#[derive(Drop)]
pub struct Pieces {
    separator: Text,
    text: Text,
    /// Where the next piece begins, where one is left.
    from: Option<usize>,
    ghost on_boundary: { ForSome from (λ n. 0 < n → IsCharBoundary text n) },
}

/// The first piece of a text, and how many bytes it takes with its separator, if one stands behind it.
#[derive(Clone, Copy)]
struct FirstPiece<'a> {
    piece: &'a str,
    taken: Option<usize>,
}

impl Pieces {
    ghost use Rattle.std.specs.Prelude.{◌≡◌, map};
    ghost use Rattle.rel_sources.specs.Traces.{text_item};
    ghost use Rattle.rel_sources.specs.Words.{pieces_by};
    ghost use Rattle.rel_sources.specs.Draws.{Draws};
    ghost use Rattle.rel_sources.specs.Sources.{pieces_left};

    pub fn new(separator: Text, text: Text) -> Pieces
        ensures { pieces_left result ≡ map text_item (pieces_by separator text) }
    {
        Pieces {
            separator,
            text,
            from: Some(0),
        }
    }

    pub fn draw(&mut self, alloc: Global) -> Drawn
        ensures { Draws (pieces_left self.old) result (pieces_left self.new) }
    {
        let Some(from) = self.from else {
            return Drawn::End;
        };
        let text = self.text.as_str();
        let first = first_piece(self.separator.as_str(), &text[from..]);
        let Ok(piece) = Text::from_str(alloc, first.piece) else {
            return Drawn::Memory;
        };
        self.from = further(text, from, first.taken);
        Drawn::Item(HeldItem::text(piece))
    }
}

/// Where the next piece begins, so many bytes behind a place of the text.
fn further(text: &str, from: usize, taken: Option<usize>) -> Option<usize>
    requires inside { from ≤ length text.now }
    requires taken { ForSome taken (IsCharBoundary (drop from text.now)) }
    ensures place { result ≡ option_map (λ n. from + n) taken }
    ensures boundary { ForSome result (λ n. 0 < n → IsCharBoundary text.now n) }
{
    let _length = text.len();
    match taken {
        Some(taken) => Some(from + taken),
        None => None,
    }
}

fn first_piece<'a>(separator: &str, text: &'a str) -> FirstPiece<'a>
    ensures pieces { pieces_by separator.now text.now
        ≡ result.piece.now ∷ pieces_from separator.now text.now result.taken }
    ensures boundary { ForSome result.taken (IsCharBoundary text.now) }
{
    if separator.is_empty() {
        return FirstPiece {
            piece: text,
            taken: None,
        };
    }
    match text.find(separator) {
        Some(place) => FirstPiece {
            piece: &text[..place],
            taken: Some(place + separator.len()),
        },
        None => FirstPiece {
            piece: text,
            taken: None,
        },
    }
}
