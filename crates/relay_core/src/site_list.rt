ghost use Rattle.std.specs.Prelude.{◌≡◌, [], MatchOption, OnOk, OnErr};
ghost use Rattle.relay_core.specs.KeptSites.{AreKept, FindsNotBelow, HasPlace, IsKept, with_site};
ghost use Rattle.std.specs.Ordering.{nat_cmp};
ghost use Rattle.std.specs.Cmp.Lexicographic.{slice_cmp};
ghost use Rattle.fix_site.specs.declared.site.Site.{Site};
ghost use Rattle.fix_site.specs.Sites.{IsSite};

use fix_site::Site;
use std::alloc::{AllocError, Global};
use std::cmp::Ordering;
use std::marker::Model;

/// Sites in strictly ascending byte order of their names. Contracts see the list of them.
#[derive(Drop)]
pub(crate) struct SiteList {
    sites: Vec<Site>,
}

impl Model for SiteList {
    ghost use Rattle.std.specs.Prelude.{List};
    ghost use Rattle.fix_site.specs.declared.site.Site.{Site};
    ghost use Rattle.relay_core.specs.KeptSites.{AreKept};

    ghost Value = { List Site };

    ghost view = { λ s. s.sites.items };

    ghost invariant = { λ s. AreKept s.sites.items };
}

impl SiteList {
    /// No site.
    pub(crate) fn new(alloc: Global) -> SiteList
        ensures { result ≡ [] }
    {
        SiteList {
            sites: Vec::new(alloc),
        }
    }

    /// The sites.
    pub(crate) fn as_slice(&self) -> &[Site]
        ensures sites { result.now ≡ self.now }
        ensures kept { AreKept result.now }
    {
        self.sites.as_slice()
    }

    /// The site of this name, if it is kept.
    pub(crate) fn get(&self, name: &str) -> Option<&Site>
        ensures found { MatchOption result ((site : Site) → ¬ IsKept self.now name.now site)
            (λ site. IsKept self.now name.now site.now × IsSite site.now) }
        ensures kept { AreKept self.now }
    {
        self.sites.iter().find(|site| site.name.as_str() == name)
    }

    /// The version of the site of this name, if one is kept that isn't below this version.
    pub(crate) fn version_not_below(&self, name: &str, version: u64) -> Option<u64>
        ensures { FindsNotBelow self.now name.now version result }
    {
        match self.get(name) {
            Some(kept) if version <= kept.version => Some(kept.version),
            _ => None,
        }
    }

    /// Keeps the site, in the place of one of its name. An error changes nothing.
    pub(crate) fn put(&mut self, site: Site) -> Result<(), AllocError>
        requires { IsSite site }
        ensures ok { OnOk result (self.new ≡ with_site site self.old) }
        ensures err { OnErr result (self.new ≡ self.old) }
    {
        match self.place(site.name.as_str()) {
            Ok(place) => {
                self.sites[place] = site;
                Ok(())
            }
            Err(place) => Ok(self.sites.insert(place, site)?),
        }
    }

    /// The place of the site of this name, or the one where it would stand.
    fn place(&self, name: &str) -> Result<usize, usize>
        ensures { HasPlace self.now name.now result }
    {
        self.sites
            .as_slice()
            .binary_search_by(|site| name_order(site, name))
    }
}

/// The order of the site's name to this one, byte by byte.
fn name_order(site: &Site, name: &str) -> Ordering
    ensures { result ≡ slice_cmp nat_cmp site.now.name name.now }
{
    site.name.as_str().cmp(name)
}
