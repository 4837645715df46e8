ghost use Rattle.std.specs.Prelude.{◌≡◌, IfOk};

use crate::texts::Texts;
use rel_lexer::Text;
use std::alloc::AllocError;
use std::marker::Model;

/// A part of a site that is asked or run, and the number of the line of the site's text on which it begins, counted from
/// 1.
#[derive(Drop)]
pub enum Piece {
    /// A question, of a `relevance` line or of a `success clause`.
    Relevance { line: u32, text: Text },
    /// A script of one line or more.
    Script { line: u32, lines: Texts },
}

impl Piece {
    /// The same piece once more.
    pub fn copy(&self) -> Result<Piece, AllocError>
        ensures { IfOk result (λ piece. piece ≡ self.now) }
    {
        match self {
            Piece::Relevance { line, text } => Ok(Piece::Relevance {
                line: *line,
                text: text.copy()?,
            }),
            Piece::Script { line, lines } => Ok(Piece::Script {
                line: *line,
                lines: lines.copy()?,
            }),
        }
    }
}

/// Pieces in the order of their lines. Contracts see the list of them.
#[derive(Drop)]
pub struct Pieces {
    items: Vec<Piece>,
}

impl Model for Pieces {
    ghost use Rattle.std.specs.Prelude.{List};
    ghost use Rattle.fix_site.specs.declared.piece.Piece.{Piece};

    ghost Value = { List Piece };

    ghost view = { λ p. p.items.items };
}

impl Pieces {
    /// The list of these pieces. It takes no memory.
    pub fn from_vec(pieces: Vec<Piece>) -> Pieces
        ensures { result ≡ pieces.items }
    {
        Pieces { items: pieces }
    }

    /// The pieces, to be changed. It takes no memory.
    pub fn into_vec(self) -> Vec<Piece>
        ensures { result.items ≡ self }
    {
        self.items
    }

    /// The pieces.
    pub fn as_slice(&self) -> &[Piece]
        ensures { result.now ≡ self.now }
    {
        self.items.as_slice()
    }

    /// The same pieces once more.
    pub fn copy(&self) -> Result<Pieces, AllocError>
        ensures { IfOk result (λ pieces. pieces ≡ self.now) }
    {
        let mut copies = Vec::new(*self.items.allocator());
        for piece in self.items.as_slice() {
            copies.push(piece.copy()?)?;
        }
        Ok(Pieces::from_vec(copies))
    }
}
