// The list of an upstream's sites.
ghost use Rattle.std.specs.Prelude.{IsTrue, ◌↔◌};
ghost use Rattle.desk_rounds.specs.Listing.{IsBehindLast, ReadsLine, ReadsVersions, TakesVersion};
ghost use Rattle.desk_rounds.specs.Replies.{AreListed};

use crate::asking::Miss;
use line_forms::{Ahead, Lines, first_field, read_id, read_name};
use rel_lexer::Text;
use server_text::{SiteVersion, SiteVersions};
use std::alloc::Global;

/// Reads lines of a name and a version each, the names in strictly ascending byte order. The error is a bad answer, or want of memory,
/// here and below.
pub(crate) fn read_versions(alloc: Global, text: &[u8]) -> Result<SiteVersions, Miss>
    ensures { ReadsVersions text.now result }
{
    let mut sites = SiteVersions::new(alloc);
    let mut lines = Lines::new(text);
    'lines: loop {
        match lines.take_line() {
            Ahead::Line(line) => take_version(alloc, line, &mut sites)?,
            Ahead::End => return Ok(sites),
            Ahead::Unended => return Err(Miss::BadAnswer),
        }
    }
}

/// Appends the site of a line, where it can stand behind these.
fn take_version(alloc: Global, line: &[u8], sites: &mut SiteVersions) -> Result<(), Miss>
    requires { AreListed sites.old }
    ensures { TakesVersion line.now sites.old result sites.new }
{
    let Some(site) = read_version(line) else {
        return Err(Miss::BadAnswer);
    };
    if !comes_behind(sites.as_slice(), site.name) {
        return Err(Miss::BadAnswer);
    }
    let name = Text::from_str(alloc, site.name)?;
    sites.push(SiteVersion {
        name,
        version: site.version,
    })?;
    Ok(())
}

/// The name and the version of a line.
#[derive(Clone, Copy)]
pub struct NamedVersion<'a> {
    pub name: &'a str,
    pub version: u64,
}

/// Reads a line.
fn read_version(line: &[u8]) -> Option<NamedVersion<'_>>
    ensures { ReadsLine line.now result }
{
    let Some(cut) = first_field(line) else {
        return None;
    };
    let Some(name) = read_name(cut.first) else {
        return None;
    };
    let Some(version) = read_id(cut.rest) else {
        return None;
    };
    Some(NamedVersion { name, version })
}

/// Whether the name comes behind that of the last of these.
fn comes_behind(sites: &[SiteVersion], name: &str) -> bool
    ensures { IsTrue result ↔ IsBehindLast sites.now name.now }
{
    match sites.last() {
        Some(last) => last.name.as_str() < name,
        None => true,
    }
}
