ghost use Rattle.std.specs.Prelude.{IsTrue, ◌↔◌, ℕ, List, ◌∷◌, All};
ghost use Rattle.line_forms.specs.Cuts.{CutsLast, pieces};
ghost use Rattle.line_forms.specs.Reads.{ReadsText};
ghost use Rattle.line_forms.specs.Paths.{IsPart, IsPartText, AreParts, HasPathForm, IsPath};

use crate::Cut;
use crate::cut::{cut_at, cut_at_last};

/// The most bytes of a path.
const LONGEST_PATH: usize = 1024;

/// Reads a path of 1 to 1,024 bytes: `/`, or parts joined by `/`, with one `/` before them or none. A path is written
/// as it is.
pub fn read_path(text: &[u8]) -> Option<&str>
    ensures { ReadsText IsPath text.now result }
{
    let Ok(path) = str::from_utf8(text) else {
        return None;
    };
    if text.len() > LONGEST_PATH {
        return None;
    }
    if !has_path_form(text) {
        return None;
    }
    Some(path)
}

/// Reads one part of a path: not empty, `.` or `..`, and without `/` and bytes below 32.
pub fn read_part(text: &[u8]) -> Option<&str>
    ensures { ReadsText IsPartText text.now result }
{
    let Ok(part) = str::from_utf8(text) else {
        return None;
    };
    if !is_part(text) {
        return None;
    }
    Some(part)
}

/// Cuts a path before its last part. `first` is the path of its parent, empty where that is `/`, and `rest` is the last
/// part. None where the path has no `/`: it is its own last part, and its parent is the folder it stands in.
pub fn last_part(path: &[u8]) -> Option<Cut<'_>>
    ensures { CutsLast 47 path.now result }
{
    cut_at_last(path, b'/')
}

/// The parts of a path are the pieces of its text between the `/`s, and none of them is before a leading `/`.
pub fn a_path_is_its_parts()
    ensures parts { (text : List ℕ) → AreParts text ↔ All IsPart (pieces 47 text) }
    ensures rootless { (rest : List ℕ) → ¬ AreParts (47 ∷ rest) }
{}

fn has_path_form(text: &[u8]) -> bool
    ensures { IsTrue result ↔ HasPathForm text.now }
{
    if text == b"/".as_slice() {
        return true;
    }
    let Some(parts) = text.strip_prefix(b"/") else {
        return are_parts(text);
    };
    are_parts(parts)
}

fn are_parts(text: &[u8]) -> bool
    ensures { IsTrue result ↔ AreParts text.now }
{
    let mut left = text;
    while let Some(cut) = cut_at(left, b'/') {
        if !is_part(cut.first) {
            return false;
        }
        left = cut.rest;
    }
    is_part(left)
}

fn is_part(part: &[u8]) -> bool
    ensures { IsTrue result ↔ IsPart part.now }
{
    if part.is_empty() || part == b".".as_slice() || part == b"..".as_slice() {
        return false;
    }
    part.iter().all(|byte| *byte >= b' ' && *byte != b'/')
}
