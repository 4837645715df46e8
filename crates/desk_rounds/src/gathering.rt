// The part of a round in which newer sites are gathered.
ghost use Rattle.std.specs.Prelude.{◌≡◌, List, [], IfSome, Ok};
ghost use Rattle.fix_site.specs.Sites.{IsSite};
ghost use Rattle.desk_rounds.specs.Clients.{at};
ghost use Rattle.desk_rounds.specs.Gathering.{GathersAll, GathersOne, KeepsCame, next_kept};
ghost use Rattle.desk_rounds.specs.Lines.{Line};
ghost use Rattle.desk_rounds.specs.Parts.{DoesEach, Prints};
ghost use Rattle.desk_rounds.specs.Ways.{way};

use crate::asking::{ask_site, ask_sites};
use crate::client::Client;
use crate::line::say_miss;
use crate::part::Next;
use crate::way::said;
use desk_base::Bytes;
use desk_http::Link;
use fix_site::Site;
use rel_lexer::Text;
use report_text::Gathered;
use server_text::SiteVersion;
use std::alloc::Global;

/// Asks which sites there are, and gathers those that are newer.
pub(crate) fn gather_sites<C: Client, L: Link>(
    alloc: Global,
    client: &mut C,
    link: &mut L,
    second: &mut Option<Text>,
    out: &mut Bytes,
) -> Next
    requires { C.sound (C.told client.old) }
    ensures gathers { (lines : List Line) × GathersAll C.rules (at (C.told client.old) (way (L.told link.old) second.old)) result lines
        (at (C.told client.new) (way (L.told link.new) second.new)) × Prints result lines out.old out.new }
    ensures sound { C.sound (C.told client.new) }
    ensures fixed { C.fixed (C.told client.new) ≡ C.fixed (C.told client.old) }
{
    let before = second.is_some();
    let came = ask_sites(alloc, link, second);
    match said(before, second, came, out) {
        Ok(sites) => gather_listed(alloc, client, link, second, sites.as_slice(), out),
        Err(miss) => say_miss(miss, out),
    }
}

/// Gathers those of the listed sites that are newer.
fn gather_listed<C: Client, L: Link>(
    alloc: Global,
    client: &mut C,
    link: &mut L,
    second: &mut Option<Text>,
    sites: &[SiteVersion],
    out: &mut Bytes,
) -> Next
    requires { C.sound (C.told client.old) }
    ensures gathers { (lines : List Line) × DoesEach (GathersOne C.rules) sites.now
        (at (C.told client.old) (way (L.told link.old) second.old)) result lines (at (C.told client.new) (way (L.told link.new) second.new))
        × Prints result lines out.old out.new }
    ensures sound { C.sound (C.told client.new) }
    ensures fixed { C.fixed (C.told client.new) ≡ C.fixed (C.told client.old) }
{
    'sites: for site in sites {
        match gather_site(alloc, client, link, second, site, out) {
            Next::Item => {}
            Next::Part => return Next::Part,
            Next::Memory => return Next::Memory,
        }
    }
    Next::Item
}

/// Asks for a listed site and keeps it, where it is newer.
fn gather_site<C: Client, L: Link>(
    alloc: Global,
    client: &mut C,
    link: &mut L,
    second: &mut Option<Text>,
    site: &SiteVersion,
    out: &mut Bytes,
) -> Next
    requires { C.sound (C.told client.old) }
    ensures gathers { (lines : List Line) × GathersOne C.rules site.now (at (C.told client.old) (way (L.told link.old) second.old)) result
        lines (at (C.told client.new) (way (L.told link.new) second.new)) × Prints result lines out.old out.new }
    ensures sound { C.sound (C.told client.new) }
    ensures fixed { C.fixed (C.told client.new) ≡ C.fixed (C.told client.old) }
{
    let kept = client.kept_version(&site.name);
    if site.version <= kept {
        return Next::Item;
    }
    let before = second.is_some();
    let came = ask_site(alloc, link, second, &site.name, kept);
    match said(before, second, came, out) {
        Ok(came) => keep_came(alloc, client, came),
        Err(miss) => say_miss(miss, out),
    }
}

/// Keeps the site that came, if one did.
fn keep_came<C: Client>(alloc: Global, client: &mut C, came: Option<Site>) -> Next
    requires sound { C.sound (C.told client.old) }
    requires good { IfSome came IsSite }
    ensures keeps { KeepsCame C.rules (Ok came) (C.told client.old) result [] (C.told client.new) }
    ensures sound { C.sound (C.told client.new) }
    ensures fixed { C.fixed (C.told client.new) ≡ C.fixed (C.told client.old) }
{
    match came {
        Some(site) => next_kept(client.keep(alloc, &site)),
        None => Next::Item,
    }
}

/// What comes next after a site was to be kept.
fn next_kept(gathered: Gathered) -> Next
    ensures { result ≡ next_kept gathered }
{
    match gathered {
        Gathered::New | Gathered::Older(_) => Next::Item,
        Gathered::Memory => Next::Memory,
    }
}
