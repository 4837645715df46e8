ghost use Rattle.std.specs.Prelude.{◌≡◌, IfOk};
ghost use Rattle.bf_world.specs.Paths.{is_part, is_path, is_free, last_name, parent_path, slash_behind, joined};

use line_forms::{a_path_is_its_parts, last_part, read_part, read_path};
use rel_lexer::Text;
use std::alloc::{AllocError, Global};

/// Whether a text is one part of a path.
pub fn is_part(text: &str) -> bool
    ensures { result ≡ is_part text.now }
{
    read_part(text.as_bytes()).is_some()
}

/// Whether a text is a path.
pub fn is_path(text: &str) -> bool
    ensures { result ≡ is_path text.now }
{
    // Proof: the test asks for the pieces of the text, a path has parts.
    a_path_is_its_parts();
    read_path(text.as_bytes()).is_some()
}

/// Whether a text is a path other than `/`.
pub(crate) fn is_free(text: &str) -> bool
    ensures { result ≡ is_free text.now }
{
    is_path(text) && text != "/"
}

/// The last part of a path.
pub fn last_name(path: &str) -> &str
    ensures { result.now ≡ last_name path.now }
{
    match last_part(path.as_bytes()) {
        Some(cut) => &path[cut.first.len() + 1..],
        None => path,
    }
}

/// The path of the folder in which a path stands, empty where that is the work folder or `/`.
pub(crate) fn parent_path(path: &str) -> &str
    ensures { result.now ≡ parent_path path.now }
{
    match last_part(path.as_bytes()) {
        Some(cut) => &path[..cut.first.len()],
        None => "",
    }
}

/// What stands between a folder's path and the name of what is in it.
fn slash_behind(folder: &str) -> &'static str
    ensures { result.now ≡ slash_behind folder.now }
{
    if folder.ends_with('/') { "" } else { "/" }
}

/// The path of what has this name in a folder.
pub fn joined(alloc: Global, folder: &str, name: &str) -> Result<Text, AllocError>
    ensures { IfOk result (λ path. path ≡ joined folder.now name.now) }
{
    let mut path = Text::from_str(alloc, folder)?;
    path.push(slash_behind(folder))?;
    path.push(name)?;
    Ok(path)
}
