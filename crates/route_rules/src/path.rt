// The values in a path.
ghost use Rattle.line_forms.specs.Numbers.{IsId};
ghost use Rattle.line_forms.specs.Readers.{Spells};
ghost use Rattle.route_rules.specs.Routes.{IsDigestValue, file_path, results_path, stop_path};
ghost use Rattle.route_rules.specs.Finding.{Fronts, SpellsName, SpellsSite};

use line_forms::{LAST_ID, last_part, read_digest, read_id, read_name, read_number};

/// A site that is asked for: its name, and the version that is kept already.
#[derive(Clone, Copy)]
pub(crate) struct SiteAsked<'a> {
    pub name: &'a str,
    pub version: u64,
}

/// What follows in a path that begins so.
fn after<'a>(path: &'a [u8], front: &[u8]) -> Option<&'a [u8]>
    ensures { Fronts front.now path.now result }
{
    path.strip_prefix(front)
}

/// The id in `/actions/ID/stop`.
pub(crate) fn id_in(path: &[u8]) -> Option<u64>
    ensures { Spells IsId stop_path path.now result }
{
    let rest = after(path, b"/actions/")?;
    let id = rest.strip_suffix(b"/stop")?;
    read_id(id)
}

/// The digest in `/files/DIGEST`.
pub(crate) fn digest_in(path: &[u8]) -> Option<[u8; 32]>
    ensures { Spells IsDigestValue file_path path.now result }
{
    let digest = after(path, b"/files/")?;
    read_digest(digest)
}

/// The name in `/results/NAME`.
pub(crate) fn computer_in(path: &[u8]) -> Option<&str>
    ensures { SpellsName results_path path.now result }
{
    let name = after(path, b"/results/")?;
    read_name(name)
}

/// The name and the version in `/sites/NAME/VERSION`.
pub(crate) fn site_in(path: &[u8]) -> Option<SiteAsked<'_>>
    ensures { SpellsSite path.now result }
{
    let cut = last_part(path)?;
    let name = after(cut.first, b"/sites/")?;
    Some(SiteAsked {
        name: read_name(name)?,
        version: read_number(cut.rest, LAST_ID)?,
    })
}
