ghost use Rattle.std.specs.Prelude.{◌≡◌, ◌++◌, List, ℕ, OnOk, OnErr};
ghost use Rattle.line_forms.specs.Cuts.{Cuts};
ghost use Rattle.line_forms.specs.Fields.{IsFirstField, Follows, field_text};

use crate::Cut;
use crate::around::write_around;
use crate::cut::cut_at;
use desk_base::Bytes;
use std::alloc::{AllocError, Global};

/// The first field of a line, and what follows the space behind it. None where the line has no space: it is one field
/// then. A field may be empty here, as before a line's leading space; no reader of this crate takes an empty one.
pub fn first_field(line: &[u8]) -> Option<Cut<'_>>
    ensures { Cuts 32 line.now result }
{
    cut_at(line, b' ')
}

/// What follows the word and a space, where a line begins with these.
pub fn after_word<'a>(line: &'a [u8], word: &[u8]) -> Option<&'a [u8]>
    ensures { Follows word.now line.now result }
{
    line.strip_prefix(word)?.strip_prefix(b" ")
}

/// Appends a field and the space behind it.
pub fn write_field(alloc: Global, field: &[u8], out: &mut Bytes) -> Result<(), AllocError>
    ensures ok { OnOk result (out.new ≡ out.old ++ field_text field.now) }
    ensures err { OnErr result (out.new ≡ out.old) }
{
    write_around(alloc, b"", field, b" ", out)
}

/// A line has one first field at most, and one rest behind it.
pub fn one_first_field()
    ensures { (line first rest other left : List ℕ) → IsFirstField line first rest
        → IsFirstField line other left → (other ≡ first) × (left ≡ rest) }
{}
