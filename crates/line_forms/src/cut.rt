ghost use Rattle.std.specs.Prelude.{◌≡◌, ◌<◌, ℕ, List, [], ◌∷◌, length, All};
ghost use Rattle.std.specs.List.{join_with_byte};
ghost use Rattle.line_forms.specs.Cuts.{Cuts, CutsLast, IsCut, Lacks, pieces};

use memchr::{memchr, memrchr};

/// What stands before a byte, and what stands behind it.
#[derive(Clone, Copy)]
pub struct Cut<'a> {
    pub first: &'a [u8],
    pub rest: &'a [u8],
}

/// Cuts a text at the first such byte.
pub(crate) fn cut_at(text: &[u8], byte: u8) -> Option<Cut<'_>>
    ensures { Cuts byte text.now result }
{
    let at = memchr(byte, text)?;
    Some(Cut {
        first: &text[..at],
        rest: &text[at + 1..],
    })
}

/// Cuts a text at the last such byte.
pub(crate) fn cut_at_last(text: &[u8], byte: u8) -> Option<Cut<'_>>
    ensures { CutsLast byte text.now result }
{
    let at = memrchr(byte, text)?;
    Some(Cut {
        first: &text[..at],
        rest: &text[at + 1..],
    })
}

/// A text is its pieces joined again, one at least and none with the byte in it. A cut takes the first one off, a text
/// without the byte is one, and parts without the byte are the pieces of their join.
pub fn a_text_is_its_pieces()
    ensures joined { (byte : ℕ) (text : List ℕ) → join_with_byte byte (pieces byte text) ≡ text }
    ensures some { (byte : ℕ) (text : List ℕ) → 0 < length (pieces byte text) }
    ensures lack { (byte : ℕ) (text : List ℕ) → All (Lacks byte) (pieces byte text) }
    ensures cut { (byte : ℕ) (text first rest : List ℕ) → IsCut byte text first rest
        → pieces byte text ≡ first ∷ pieces byte rest }
    ensures none { (byte : ℕ) (text : List ℕ) → Lacks byte text → pieces byte text ≡ text ∷ [] }
    ensures parts { (byte : ℕ) (parts : List (List ℕ)) → 0 < length parts → All (Lacks byte) parts
        → pieces byte (join_with_byte byte parts) ≡ parts }
{}
