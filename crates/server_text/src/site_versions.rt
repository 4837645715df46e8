ghost use Rattle.std.specs.Prelude.{◌≡◌, ◌++◌, [], ◌∷◌, IfOk, OnOk, OnErr, filter_map};
ghost use Rattle.server_text.specs.ToldRows.{site_version};

use desk_keep::Change;
use rel_lexer::Text;
use std::alloc::{AllocError, Global};
use std::marker::Model;

/// A site that is kept, and the version in which it is.
#[derive(Drop)]
pub struct SiteVersion {
    pub name: Text,
    /// From 1 to 2^53.
    pub version: u64,
}

impl SiteVersion {
    /// The same once more. The error is want of memory.
    pub fn copy(&self) -> Result<SiteVersion, AllocError>
        ensures { IfOk result (λ site. site ≡ self.now) }
    {
        Ok(SiteVersion {
            name: self.name.copy()?,
            version: self.version,
        })
    }
}

/// Sites and their versions in their order. Contracts see the list of them.
#[derive(Drop)]
pub struct SiteVersions {
    list: Vec<SiteVersion>,
}

impl Model for SiteVersions {
    ghost use Rattle.std.specs.Prelude.{List};
    ghost use Rattle.server_text.specs.declared.site_versions.SiteVersion.{SiteVersion};

    ghost Value = { List SiteVersion };

    ghost view = { λ s. s.list.items };
}

impl SiteVersions {
    /// None. It takes no memory.
    pub fn new(alloc: Global) -> SiteVersions
        ensures { result ≡ [] }
    {
        SiteVersions {
            list: Vec::new(alloc),
        }
    }

    /// The sites.
    pub fn as_slice(&self) -> &[SiteVersion]
        ensures { result.now ≡ self.now }
    {
        self.list.as_slice()
    }

    /// Appends a site. The error is want of memory; then nothing is appended.
    pub fn push(&mut self, site: SiteVersion) -> Result<(), AllocError>
        ensures ok { OnOk result (self.new ≡ self.old ++ site ∷ []) }
        ensures err { OnErr result (self.new ≡ self.old) }
    {
        self.list.push(site)?;
        Ok(())
    }

    /// The same sites once more. The error is want of memory.
    pub fn copy(&self) -> Result<SiteVersions, AllocError>
        ensures { IfOk result (λ sites. sites ≡ self.now) }
    {
        let mut copies = Vec::new(*self.list.allocator());
        for site in self.list.as_slice() {
            copies.push(site.copy()?)?;
        }
        Ok(SiteVersions { list: copies })
    }
}

/// The sites of which these are rows, in their order. The error is want of memory.
pub fn sites_in(alloc: Global, rows: &[Change]) -> Result<SiteVersions, AllocError>
    ensures { IfOk result (λ sites. sites ≡ filter_map site_version rows.now) }
{
    let mut sites = SiteVersions::new(alloc);
    for row in rows {
        push_version(row, &mut sites)?;
    }
    Ok(sites)
}

/// Appends the site of a row.
fn push_version(row: &Change, sites: &mut SiteVersions) -> Result<(), AllocError>
    ensures { OnOk result (sites.new ≡ sites.old ++ filter_map site_version (row.now ∷ [])) }
{
    match row {
        Change::Site { name, version, .. } => sites.push(SiteVersion {
            name: name.copy()?,
            version: *version,
        }),
        _ => Ok(()),
    }
}
