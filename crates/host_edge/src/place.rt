use bf_world::{is_path, joined};
use rel_lexer::Text;
use std::alloc::{AllocError, Global};

/// The most bytes of a path.
const LONGEST_PATH: usize = 1024;

/// The most bytes of a number by which the system names something, as a process.
pub(crate) const LONGEST_NUMBER: usize = 20;

/// Where a path lies: one without a leading `/` lies beneath the work folder. None where the text is no path.
pub(crate) fn place_of(alloc: Global, work: &str, path: &str) -> Result<Option<Text>, AllocError> {
    if !is_path(path) {
        return Ok(None);
    }
    if path.starts_with('/') {
        return Ok(Some(Text::from_str(alloc, path)?));
    }
    Ok(Some(joined(alloc, work, path)?))
}

/// The folder in which a place lies.
pub(crate) fn folder_of(place: &str) -> &str {
    match place.rsplit_once('/') {
        Some((folder, _)) if folder.is_empty() => "/",
        Some((folder, _)) => folder,
        None => ".",
    }
}

/// The most bytes of a name whose path in this folder is still a path.
pub(crate) fn longest_name(folder: &str) -> usize {
    let slash = if folder.ends_with('/') { 0 } else { 1 };
    LONGEST_PATH.saturating_sub(folder.len().saturating_add(slash))
}
