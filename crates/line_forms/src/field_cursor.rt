ghost use Rattle.std.specs.Prelude.{◌≡◌, ◌<◌, [], List, ℕ, All, length, IsTrue, ◌↔◌};
ghost use Rattle.line_forms.specs.Cuts.{Lacks};
ghost use Rattle.line_forms.specs.FieldLists.{fields_of, line_of, TakesField};

use crate::cut::cut_at;
use std::marker::Model;

/// A cursor over the fields of a line, which exactly one space separates. Contracts see the fields that are left. A field
/// may be empty here; no reader of this crate takes an empty one.
#[derive(Drop)]
pub struct Fields<'a> {
    left: Option<&'a [u8]>,
}

impl<'a> Model for Fields<'a> {
    ghost use Rattle.std.specs.Prelude.{List, ℕ};
    ghost use Rattle.line_forms.specs.FieldLists.{left_fields};

    ghost Value = { List (List ℕ) };

    ghost view = { λ f. left_fields f.left };
}

impl<'a> Fields<'a> {
    /// Before the first field of the line, or of the rest of one.
    pub fn new(line: &'a [u8]) -> Fields<'a>
        ensures { result ≡ fields_of line.now }
    {
        Fields { left: Some(line) }
    }

    /// The next field, or None where none is left.
    pub fn take_field(&mut self) -> Option<&'a [u8]>
        ensures { TakesField self.old self.new result }
    {
        let line = self.left?;
        match cut_at(line, b' ') {
            Some(cut) => {
                self.left = Some(cut.rest);
                Some(cut.first)
            }
            None => {
                self.left = None;
                Some(line)
            }
        }
    }

    /// Whether no field is left.
    pub fn is_over(&self) -> bool
        ensures { IsTrue result ↔ (self.now ≡ []) }
    {
        match self.left {
            None => true,
            Some(_) => false,
        }
    }
}

/// A line is its fields, and fields without spaces are read again from their line.
pub fn a_line_is_its_fields()
    ensures line { (line : List ℕ) → line_of (fields_of line) ≡ line }
    ensures fields { (fields : List (List ℕ)) → 0 < length fields → All (Lacks 32) fields
        → fields_of (line_of fields) ≡ fields }
{}
